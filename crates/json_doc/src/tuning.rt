//! Numbers that trade one cost for another. No answer depends on them.

/// Up to this many names, a name whose bytes stand in one word or two is compared with each; among more, halves are left out. A
/// few compares in a row cost less than as many branches that can't be foretold.
pub(crate) const FEW_NAMES: usize = 16;

/// For how many members an object that is read has room at first, at least: an object as large as the one before isn't moved as
/// it grows, and a small one takes little memory that it doesn't fill.
pub(crate) const LEAST_ROOM: usize = 4;

/// And at most: after a large object the small ones don't take its room.
pub(crate) const MOST_ROOM: usize = 8;

/// How many members may be there for a new one to be put between them. With more of them, moving the later ones takes longer
/// than a map does.
pub(crate) const MOST_MOVED: usize = 64;
