//! Numbers that trade one cost for another. No answer depends on them.

/// Of a schema object with more members it isn't tried whether it passes without a word: the trial is lost where it fails.
pub(crate) const MOST_SILENT: usize = 16;

/// Up to this many members, going through all takes no longer than to search for those to pass over.
pub(crate) const FEW_MEMBERS: usize = 64;
