//! What other keywords evaluated.

use json_doc::Name;

/// The names and the indexes of the instance that the other keywords of a schema object evaluated (JSON Schema 2020-12
/// Core, 11), in any order.
#[derive(Clone, Copy)]
pub struct Evaluated<'s, 'a> {
    /// The names.
    pub names: &'s [Name<'a>],
    /// The indexes.
    pub indexes: &'s [usize],
}
