//! Numbers that trade one cost for another. No answer depends on them.

/// Room for this many fields is made first: few heads have more, which are read twice, and to clear less room costs less.
pub(crate) const FEW_FIELDS: usize = 32;

/// Fewer bytes than this are looked at one by one, as those of a client that sends single ones: a search would begin anew for
/// each of them.
pub(crate) const FEW_BYTES: usize = 8;
