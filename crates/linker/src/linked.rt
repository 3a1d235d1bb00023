//! Linked documents.

ghost use Rattle.std.specs.Prelude.{◌≡◌, [], Some, false, find, is_some, slice_get, string_bytes};
ghost use Rattle.definitions.specs.Values.{Text, same_text};
ghost use Rattle.definitions.specs.Lists.{has_repeat};
ghost use Rattle.definitions.specs.Reach.{holds_resource, missing_references};
ghost use Rattle.definitions.specs.Scanning.{resource_uris};
ghost use Rattle.definitions.specs.Schemas.{table_of};
ghost use Rattle.definitions.specs.Targets.{schema_with_dynamic_anchor};
ghost use Rattle.linker.specs.CompoundDocuments.{compound_documents};
ghost use Rattle.linker.specs.SharedDocuments.{shared_documents};
ghost use Rattle.linker.specs.ValueSets.{value_set};
ghost use Rattle.linker.specs.Visits.{EmbedAlike};
ghost use Rattle.schema_scan.specs.CompiledDocuments.{compiled_schemas, compiled_view};
ghost use Rattle.schema_scan.specs.DynamicResources.{has_resource};
ghost use Rattle.std.proofs.Props.{props};
ghost use Rattle.std.specs.List.Sorted.{IsStrictlySortedBy-prop};
ghost use Rattle.definitions.specs.Documents.{Ascend};

use crate::compound_documents::CompoundDocuments;
use schema_scan::Compiled;
use std::collections::{BTreeMap, BTreeSet};
use std::rc::Rc;

/// A resource, and the documents that it reaches, in which each reference names a schema.
///
/// Contracts see the URI that was linked, by `linked_uri`, and the documents, by `linked_documents`.
#[derive(Drop)]
pub struct Linked {
    pub(crate) uri: String,
    // The document that has it, and its number among that one's resources.
    pub(crate) document: Rc<Compiled>,
    pub(crate) number: usize,
    // In byte order of canonical URIs.
    pub(crate) documents: Vec<Rc<Compiled>>,
    // Those of them that have several resources.
    pub(crate) compound: CompoundDocuments,
    // The numbers of the documents that the references of the first resource of each lead to, by the numbers of their texts,
    // where several documents are linked.
    pub(crate) target_documents: Vec<Vec<Option<usize>>>,
    // The URIs of the resources that have a dynamic anchor, by its name.
    pub(crate) dynamic_resources: BTreeMap<String, BTreeSet<String>>,
    ghost ascend: { Ascend (shared_documents documents.items) } by { IsStrictlySortedBy-prop _ _ },
    ghost distinct: { has_repeat same_text
        (resource_uris (table_of (shared_documents documents.items))) ≡ false },
    ghost known: { EmbedAlike (shared_documents documents.items) (compound_documents compound) } by { Prim.hlevel (props, value_set) },
    ghost whole: { missing_references (shared_documents documents.items) ≡ [] },
    ghost holder: { find (holds_resource (string_bytes uri)) (shared_documents documents.items)
        ≡ Some (compiled_view document.value) } by { Prim.hlevel (props, value_set) },
    ghost is_numbered: { slice_get (resource_uris (compiled_schemas document.value)) number
        ≡ Some (string_bytes uri) },
    ghost by_dynamic_anchor: { (uri name : Text) → has_resource dynamic_resources uri name
        ≡ is_some (schema_with_dynamic_anchor
        (table_of (shared_documents documents.items)) uri name) },
}
