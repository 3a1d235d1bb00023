//! A schema among the documents that its references run over.

ghost use Rattle.std.specs.Prelude.{◌≡◌, IfErr, IfOk, OnErr, map, option_map, string_bytes};
ghost use Rattle.file_forms.specs.Gathered.{root_uri};
ghost use Rattle.file_forms.specs.Roots.{given_view, IsLinkedSchema, IsRoot, IsRootTrouble, IsTroubleOf};

use crate::console::Console;
use crate::folders::Folders;
use crate::gathering::Gathered;
use crate::schema_file::{SchemaFile, path_with_reference};
use crate::trouble::Trouble;
use checks::DEFAULT_URI;
use command_line::Documents;
use file_checks::{Fault, FileDocuments};
use linker::Linked;
use schema_scan::{Compiled, canonical};
use std::alloc::Global;
use std::rc::Rc;

/// What is given: the documents, the file of the schema, and its URI, if any.
#[derive(Clone, Copy)]
pub(crate) struct Given<'a> {
    pub(crate) documents: &'a Documents<'a>,
    pub(crate) schema: &'a str,
    pub(crate) uri: Option<&'a str>,
}

/// A schema among the documents that its references run over.
#[derive(Drop)]
pub(crate) struct Root {
    pub(crate) documents: FileDocuments,
    pub(crate) schema: Rc<Compiled>,
    // Those of the documents that files have.
    files: Vec<SchemaFile>,
}

/// The schema of the file, among the documents that are given. Each document of a path that is refused is told, and then
/// there is none.
pub(crate) fn gather<F: Folders, C: Console>(
    alloc: Global,
    files: &F,
    console: &mut C,
    given: &Given<'_>,
) -> Result<Option<Root>, Trouble>
    ensures ok { IfOk result (λ root. IsRoot (F.holds files.now) (F.lists files.now)
        (F.runs_in files.now) (given_view given.now) root (C.told console.old)
        (C.told console.new)) }
    ensures err { IfErr result
        (IsTroubleOf (F.holds files.now) (F.runs_in files.now) (given_view given.now)) }
    ensures untold { OnErr result (C.told console.new ≡ C.told console.old) }
    ensures printed { C.printed console.new ≡ C.printed console.old }
{
    let mut gathered = match Gathered::new(alloc, files, given.documents.library) {
        Ok(gathered) => gathered,
        Err(trouble) => return Err(trouble),
    };
    let uri = root_uri(&given.documents.paths, given.uri);
    let schema = match gathered.add_root(alloc, files, given.schema, uri) {
        Ok(schema) => schema,
        Err(trouble) => return Err(trouble),
    };
    if !gathered.add_all(alloc, files, console, &given.documents.paths) {
        return Ok(None);
    }
    Ok(Some(Root {
        documents: gathered.documents,
        schema,
        files: gathered.files,
    }))
}

// The URI that the schema stands under; none where it stands where it lies.
fn root_uri<'a>(paths: &[&str], uri: Option<&'a str>) -> Option<&'a str>
    ensures { option_map (λ u. u.now) result
        ≡ root_uri (map (λ p. p.now) paths.now) (option_map (λ u. u.now) uri.entry) }
{
    match uri {
        Some(uri) => Some(uri),
        None => {
            if paths.is_empty() {
                Some(DEFAULT_URI)
            } else {
                None
            }
        }
    }
}

/// The schema, linked with what it reaches among the documents that are given.
pub(crate) fn linked_schema<F: Folders, C: Console>(
    alloc: Global,
    files: &F,
    console: &mut C,
    given: &Given<'_>,
) -> Result<Option<Linked>, Trouble>
    ensures ok { IfOk result (λ linked. IsLinkedSchema (F.holds files.now) (F.lists files.now)
        (F.runs_in files.now) (given_view given.now) linked (C.told console.old)
        (C.told console.new)) }
    ensures err { IfErr result (IsRootTrouble (F.holds files.now) (F.lists files.now)
        (F.runs_in files.now) (given_view given.now)) }
    ensures untold { OnErr result (C.told console.new ≡ C.told console.old) }
    ensures printed { C.printed console.new ≡ C.printed console.old }
{
    match gather(alloc, files, console, given) {
        Ok(Some(mut root)) => match root.link(alloc, given.schema) {
            Ok(linked) => Ok(Some(linked)),
            Err(trouble) => Err(trouble),
        },
        Ok(None) => Ok(None),
        Err(trouble) => Err(trouble),
    }
}

impl Root {
    ghost use Rattle.std.specs.Prelude.{IfErr, IfOk};
    ghost use Rattle.file_forms.specs.Roots.{IsLinkedFrom, IsUnlinkedFrom};

    // Links the schema, whose file has this path, with what it reaches.
    fn link(&mut self, alloc: Global, path: &str) -> Result<Linked, Trouble>
        ensures ok { IfOk result (IsLinkedFrom self.old) }
        ensures err { IfErr result (IsUnlinkedFrom self.old path.now) }
    {
        let Ok(uri) = canonical(&self.schema).to_owned(alloc) else {
            return Err(Trouble::no_room());
        };
        match self.documents.link(alloc, uri.as_str()) {
            Ok(linked) => Ok(linked),
            Err(fault) => {
                let origin = self.origin_of(alloc, &fault);
                Err(Trouble::refused(alloc, path, None, &[], fault).with_origin(origin))
            }
        }
    }

    // The path of the file in which the reference stands that isn't resolved.
    fn origin_of(&self, alloc: Global, fault: &Fault) -> Option<String> {
        match fault {
            Fault::Unresolved(reference) => {
                path_with_reference(alloc, self.files.as_slice(), reference.as_str())
            }
            _ => None,
        }
    }
}
