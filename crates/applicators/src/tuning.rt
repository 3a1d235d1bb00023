//! Numbers that trade one cost for another. No answer depends on them.

/// How many times as long a list is that is searched for each name of the other, rather than walked along beside it.
pub const FAR_LONGER: usize = 4;

/// For how many plans of one keyword there may be room in memory that is kept: memory, against room made anew.
pub(crate) const MOST_KEPT: usize = 64;
