//! Where a unit stands.

/// Where a unit stands (JSON Schema 2020-12 Core, 12.3): the texts of its locations, as they stand in the output.
///
/// Contracts see the text of a unit there, by `text_of_unit`.
#[derive(Clone, Copy)]
pub struct Location<'s> {
    /// How the text of a unit begins, up to the location of its origin ([`Origin::head`](crate::Origin::head)).
    pub head: &'s str,
    /// The pointer from there to the keyword, as a fragment.
    pub onward: &'s str,
    /// The instance's location.
    pub instance_location: &'s str,
    /// The keyword's location along the evaluation path, through references.
    pub path: &'s str,
}
