//! Numbers that trade one cost for another. No answer depends on them.

/// For how many bytes the head of a location has room at first, which most heads don't exceed: memory, against a move.
pub(crate) const HEAD_ROOM: usize = 128;

/// For how many bytes there is room at least behind a text that outgrew its buffer: memory, against the filling of new room for
/// each text.
pub(crate) const TEXT_ROOM: usize = 1_024;

/// How many texts of lists of names are kept, a power of two: memory, and the clearing of it for a small instance, against
/// writing the same list again.
pub(crate) const KEPT_LISTS: usize = 64;

/// How many bytes a text has at most that is kept: memory, against writing it again.
pub(crate) const LONGEST_KEPT_LIST: usize = 256;

/// How large the memory of a text may be that is always kept for the next text, in bytes: memory, against room made anew.
pub(crate) const ALWAYS_KEPT: usize = 1_048_576;

/// How large it may be where it is kept as long as the texts are large, in bytes.
pub(crate) const MOST_KEPT: usize = 16_777_216;
