//! Numbers that trade one cost for another. No answer depends on them.

/// For how many indexes there may be room in memory that is kept: memory, against room made anew.
pub(crate) const KEPT_INDEXES: usize = 131_072;
