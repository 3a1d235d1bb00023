//! What references name.

use schema_scan::Located;

/// What a reference names first (JSON Schema 2020-12 Core, section 8.2.3).
///
/// Contracts see the schema, by `first_target`, and what a dynamic reference names in a dynamic scope, by `target_in_scope`.
#[derive(Debug, Drop)]
pub struct Named<'a> {
    /// The schema.
    pub target: Located<'a>,
    /// Its dynamic anchor, where the reference names it by that: then a dynamic reference names the schema with this anchor in
    /// the outermost resource of the dynamic scope that has it (section 8.2.3.2).
    pub anchor: Option<&'a str>,
}
