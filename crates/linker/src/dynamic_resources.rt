//! The resources of linked documents, by the names of their dynamic anchors.

ghost use Rattle.std.specs.Prelude.{◌≡◌, IfOk, is_some};
ghost use Rattle.definitions.specs.Schemas.{table_of};
ghost use Rattle.definitions.specs.Targets.{schema_with_dynamic_anchor};
ghost use Rattle.definitions.specs.Values.{Text};
ghost use Rattle.linker.specs.SharedDocuments.{shared_documents};
ghost use Rattle.schema_scan.specs.DynamicResources.{has_resource};

use schema_scan::Compiled;
use std::alloc::{AllocError, Global};
use std::collections::{BTreeMap, BTreeSet};
use std::rc::Rc;

// The URIs of the documents' resources that have a dynamic anchor, by its name.
pub(crate) fn dynamic_resources_of(
    alloc: Global,
    documents: &[Rc<Compiled>],
) -> Result<BTreeMap<String, BTreeSet<String>>, AllocError>
    ensures { IfOk result (λ resources. (uri name : Text)
        → has_resource resources uri name ≡ is_some
        (schema_with_dynamic_anchor (table_of (shared_documents documents.now)) uri name)) }
{
    let mut resources = BTreeMap::new(alloc);
    for document in documents {
        document.add_dynamic_resources(alloc, &mut resources)?;
    }
    Ok(resources)
}
