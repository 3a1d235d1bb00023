//! Files that have schemas, and what their references lead to.

use schema_scan::Compiled;
use std::alloc::{AllocError, Global};
use std::collections::BTreeSet;
use std::rc::Rc;
use uri_ref::{split, without_fragment};

/// A file, by its path, and the document that it has.
#[derive(Drop)]
pub(crate) struct SchemaFile {
    pub(crate) path: String,
    pub(crate) document: Rc<Compiled>,
}

/// The path of the first of these files of which a schema has this absolute reference, as a text of its own; none where that
/// isn't found, or memory ran out for it.
pub(crate) fn path_with_reference(
    alloc: Global,
    files: &[SchemaFile],
    reference: &str,
) -> Option<String> {
    let file = files.iter().find(|file| file
        .document
        .references()
        .iter()
        .any(|it| it.as_str() == reference))?;
    String::from_str(alloc, file.path.as_str()).ok()
}

/// The URIs of the resources into whose `definitions` a reference of these files leads, by a pointer.
pub(crate) fn with_referred_definitions(
    alloc: Global,
    files: &[SchemaFile],
) -> Result<BTreeSet<String>, AllocError> {
    let mut referred = BTreeSet::new(alloc);
    for file in files {
        add_referred(alloc, &mut referred, file.document.references())?;
    }
    Ok(referred)
}

fn add_referred(
    alloc: Global,
    referred: &mut BTreeSet<String>,
    references: &[String],
) -> Result<(), AllocError> {
    for reference in references {
        let reference = reference.as_str();
        let fragment = split(reference).fragment().unwrap_or("");
        if fragment.contains("/definitions/") {
            referred.insert(String::from_str(alloc, without_fragment(reference))?)?;
        }
    }
    Ok(())
}

/// Whether one of the document's resources has one of these URIs.
pub(crate) fn has_resource_in(document: &Compiled, uris: &BTreeSet<String>) -> bool {
    document
        .resource_uris()
        .iter()
        .any(|uri| uris.contains(uri.as_str()))
}
