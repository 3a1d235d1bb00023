//! Where a keyword is used.

use applicators::{Evaluated, Subject};
use json_doc::Doc;
use linker::Linked;

/// The application of a schema object, as its keywords see it.
#[derive(Clone, Copy)]
pub struct ObjectApplication<'a> {
    /// The documents that references lead to.
    pub linked: &'a Linked,
    /// The URI of the schema's resource.
    pub resource: &'a str,
    /// The schema object.
    pub schema: &'a Doc,
    /// What it is applied to.
    pub subject: Subject<'a>,
}

/// What a keyword asks of those that are used before it (JSON Schema 2020-12 Core, 7.1).
#[derive(Clone, Copy)]
pub struct Earlier<'s, 'a> {
    /// Whether `if` passed, where it is there.
    pub condition: Option<bool>,
    /// What the keywords but `unevaluatedItems` and `unevaluatedProperties` evaluated.
    pub evaluated: Evaluated<'s, 'a>,
}
