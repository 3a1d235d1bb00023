//! Numbers that trade one cost for another. No answer depends on them.

/// Up to this many values of an `enum` are always looked at one after the other: to sort them takes longer.
pub(crate) const FEW_VALUES: usize = 64;

/// This many values of longer ones are looked at one after the other in an evaluation, before they are sorted: an `enum` that is
/// asked a few times isn't worth the sorting.
pub(crate) const MOST_WALKED: usize = 1_048_576;

/// How many short references are kept: memory, and the clearing of it, against following one again.
pub(crate) const MOST_SHORT: usize = 64;

/// How far apart the places of two documents' first references are; odd, so that sixty-four documents have a place each.
pub(crate) const APART: usize = 11;

/// With this many bytes at most in its text and in the URI of its resource a reference is short: what it names is found about as
/// fast as among those that are kept by their numbers.
pub(crate) const SHORT_REFERENCE: usize = 128;

/// The location of what a reference names is written at once where it takes no more bytes than this, for the units below it:
/// longer ones of many references that are kept would take more memory than is worth it.
pub(crate) const LONG_LOCATION: usize = 1024;

/// How many dynamic anchors are kept with what they name in the scope: memory, against a walk along the scope.
pub(crate) const KEPT_ANCHORS: usize = 16;

/// This many bytes are compared before it is asked how many the texts of resources have: most evaluations compare fewer, and
/// number no text.
pub(crate) const COMPARED_FIRST: usize = 67_108_864;

/// This many times the bytes of all texts are compared before the texts are numbered: that takes longer than to compare them.
pub(crate) const COMPARED_TIMES: usize = 64;

/// To compare a text of this many bytes takes no longer than to hold its pattern.
pub(crate) const SHORT_PATTERN: usize = 64;
