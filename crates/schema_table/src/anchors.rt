//! Anchors (JSON Schema 2020-12 Core, section 8.2.2).

use locations::OwnedWay;

/// An anchor, and where the schema stands that has it.
#[derive(Debug, Drop)]
pub struct Anchor {
    pub name: String,
    /// Whether `$dynamicAnchor` made it.
    pub dynamic: bool,
    /// The URI of the schema's resource.
    pub resource: String,
    /// How many steps of the way lead to the resource's root.
    pub start: usize,
    /// The way from the document's root to the schema.
    pub way: OwnedWay,
}
