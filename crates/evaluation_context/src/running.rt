//! A schema object that is being applied.

use basic_output::Origin;
use std::rc::Rc;

/// A schema object that is being applied: the origin that it stands at or below, how long the path to it is and how many of
/// those steps lead on from there, the name at its instance location, and how long that is.
#[derive(Debug, Drop)]
pub(crate) struct Running<'a> {
    pub(crate) origin: Rc<Origin<'a>>,
    pub(crate) name: Option<&'a str>,
    /// How many steps the path to it has.
    pub(crate) reach: usize,
    /// How many of the last of them lead on from the origin.
    pub(crate) onward: usize,
    /// How many steps its instance location has.
    pub(crate) depth: usize,
    /// How its identity ends, by `end_of`, or 0 where that isn't known.
    pub(crate) end: u32,
}
