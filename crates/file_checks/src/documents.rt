//! The documents that a check's references run over, file by file.

ghost use Rattle.std.specs.Prelude.{◌≡◌, ◌≢◌, [], Ok, Err, Some, None, false, IfOk, IfErr, OnOk, OnErr, find, is_some, map, option_map};
ghost use Rattle.definitions.specs.Batches.{batch_entries, library_of};
ghost use Rattle.definitions.specs.Documents.{documents_with, resources_of};
ghost use Rattle.definitions.specs.Patterns.{regular_search};
ghost use Rattle.definitions.specs.Reach.{reach};
ghost use Rattle.definitions.specs.Resolution.{base_form};
ghost use Rattle.definitions.specs.Texts.{parsed_value};
ghost use Rattle.definition_laws.specs.Reaching.{HaveDistinctResources};
ghost use Rattle.checks.specs.Judgements.{accepted_schema, builds_patterns, builds_under, is_for_pattern};
ghost use Rattle.faults.specs.View.{fault_view};
ghost use Rattle.json_doc.specs.Docs.{value};
ghost use Rattle.linker.specs.LinkFaults.{link_fault};
ghost use Rattle.linker.specs.LinkedDocuments.{linked_documents, linked_uri};
ghost use Rattle.linker.specs.ListedDocuments.{listed_documents};
ghost use Rattle.schema_scan.specs.CompiledDocuments.{compiled_base, compiled_value, compiled_view};
ghost use Rattle.tenant_documents.specs.EntryRefusals.{IsRefusedLibrary};
ghost use Rattle.file_checks.specs.FileTexts.{apart_from, document_beside, document_under, is_held, shared_uri};

use faults::Fault;
use json_doc::{Doc, read};
use linker::{Linked, ListSource, Source, link};
use schema_scan::{Compiled, compile, scan};
use std::alloc::Global;
use std::rc::Rc;
use tenant_documents::library_of;
use uri_ref::{base_form, split};

/// Documents of files, of which no two have a resource of one URI.
///
/// Contracts see them, in byte order of their canonical URIs, by `file_documents`.
#[derive(Drop)]
pub struct FileDocuments {
    pub(crate) source: ListSource,
}

impl FileDocuments {
    ghost use Rattle.file_checks.specs.FileSources.{file_documents};

    /// None yet.
    pub fn new(alloc: Global) -> FileDocuments
        ensures { file_documents result ≡ [] }
    {
        FileDocuments {
            source: ListSource::new(alloc),
        }
    }

    /// Those of a batch, `{"put":[{"schema":{},"uri":"https://ex.org/a"}]}`, with the faults of [`library_of`].
    pub fn of_library(alloc: Global, batch: &[u8]) -> Result<FileDocuments, Fault>
        ensures ok { IfOk result
            (λ d. library_of regular_search batch.now ≡ Ok (file_documents d)) }
        ensures err { IfErr result (λ f. f ≢ Fault.NoRoom
            → IsRefusedLibrary (batch_entries batch.now) (fault_view f)) }
    {
        match library_of(alloc, batch) {
            Ok(source) => Ok(FileDocuments { source }),
            Err(fault) => Err(fault),
        }
    }

    /// Adds the schema document that the text of a file spells, which is taken to stand under the base form of `uri`, and
    /// answers it.
    ///
    /// The first of these faults is answered, and then nothing changes: `BadUri` where `uri` has a fragment, no scheme or no
    /// base form; `BadJson` and `BadNumber` of the text; those of the scan in their order; `BadPattern`; `Taken`, with the
    /// first of the document's resource URIs that another document has. `BadPattern` is also for a pattern that is too big or
    /// nests too deep once it is built. `NoRoom` may take the place of any answer.
    #[tactic(auto, unfolding(crate::specs::FileTexts::document_beside))]
    pub fn add(&mut self, alloc: Global, uri: &str, text: &[u8]) -> Result<Rc<Compiled>, Fault>
        ensures ok { IfOk result
            (λ c. document_beside (file_documents self.old) uri.now (parsed_value text.now)
            ≡ Ok (compiled_view c.value)) }
        ensures added { IfOk result (λ c. file_documents self.new
            ≡ documents_with (compiled_view c.value) (file_documents self.old)) }
        ensures kept { OnErr result (file_documents self.new ≡ file_documents self.old) }
        ensures err { IfErr result
            (λ f. f ≢ Fault.NoRoom → is_for_pattern (fault_view f)
            (builds_patterns uri.now (parsed_value text.now)) ≡ false
            → document_beside (file_documents self.old) uri.now (parsed_value text.now)
            ≡ Err (fault_view f)) }
    {
        let document = document_of(alloc, uri, text)?;
        self.insert(alloc, document)
    }

    // Adds a document that shares no resource with these, and answers it.
    fn insert(&mut self, alloc: Global, document: Rc<Compiled>) -> Result<Rc<Compiled>, Fault>
        ensures same { IfOk result (λ c. compiled_view c.value ≡ compiled_view document.value) }
        ensures ok { OnOk result
            (apart_from (file_documents self.old) (compiled_view document.value)
            ≡ Ok (compiled_view document.value)) }
        ensures added { OnOk result (file_documents self.new
            ≡ documents_with (compiled_view document.value) (file_documents self.old)) }
        ensures kept { OnErr result (file_documents self.new ≡ file_documents self.old) }
        ensures err { IfErr result
            (λ f. f ≢ Fault.NoRoom
            → apart_from (file_documents self.old) (compiled_view document.value)
            ≡ Err (fault_view f)) }
    {
        if let Some(uri) = self.shared_uri(alloc, &document)? {
            return Err(Fault::Taken(uri.to_owned(alloc)?));
        }
        let answer = document.clone()?;
        self.source.add(document)?;
        Ok(answer)
    }

    // The first resource URI of the document that one of these has. The only error is want of memory.
    fn shared_uri<'a>(
        &self,
        alloc: Global,
        document: &'a Compiled,
    ) -> Result<Option<&'a str>, Fault>
        ensures ok { IfOk result (λ uri. option_map (λ u. u.now) uri
            ≡ shared_uri (file_documents self.now) (compiled_view document.now)) }
        ensures err { IfErr result (λ f. f ≡ Fault.NoRoom) }
    {
        for uri in document.resource_uris() {
            if self.is_held(alloc, uri)? {
                return Ok(Some(uri));
            }
        }
        Ok(None)
    }

    // Whether one of these has a resource of this URI. The only error is want of memory.
    fn is_held(&self, alloc: Global, uri: &str) -> Result<bool, Fault>
        ensures ok { IfOk result (λ held. held ≡ is_held (file_documents self.now) uri.now) }
        ensures err { IfErr result (λ f. f ≡ Fault.NoRoom) }
    {
        let mut source = &self.source;
        Ok(Source::holding(&mut source, alloc, uri)?.is_some())
    }

    /// Links the resource of this URI with the documents that it reaches among these, with the faults of
    /// [`link`](linker::link): `NotFound`, `Unresolved` and want of memory.
    pub fn link(&mut self, alloc: Global, uri: &str) -> Result<Linked, Fault>
        ensures uri { IfOk result (λ l. linked_uri l ≡ uri.now) }
        ensures documents { IfOk result
            (λ l. linked_documents l ≡ reach (file_documents self.old) uri.now) }
        ensures distinct { HaveDistinctResources (file_documents self.old) }
        ensures ok { OnOk result (link_fault (reach (file_documents self.old) uri.now) ≡ None) }
        ensures err { IfErr result
            (λ f. f ≢ Fault.NoRoom → link_fault (reach (file_documents self.old) uri.now)
            ≡ Some (fault_view f)) }
        ensures same { file_documents self.new ≡ file_documents self.old }
    {
        link(alloc, &mut self.source, uri)
    }
}

// The document that the text spells under the base form of the URI.
#[tactic(auto, unfolding(crate::specs::FileTexts::document_under))]
fn document_of(alloc: Global, uri: &str, text: &[u8]) -> Result<Rc<Compiled>, Fault>
    ensures ok { IfOk result
        (λ c. document_under (base_form uri.now) (parsed_value text.now)
        ≡ Ok (compiled_view c.value)) }
    ensures err { IfErr result
        (λ f. f ≢ Fault.NoRoom → is_for_pattern (fault_view f)
        (builds_patterns uri.now (parsed_value text.now)) ≡ false
        → document_under (base_form uri.now) (parsed_value text.now) ≡ Err (fault_view f)) }
{
    let base = base_form(alloc, uri)?;
    let schema = read(alloc, text)?;
    let compiled = accept(alloc, base.as_str(), &schema)?;
    Ok(Rc::new(alloc, compiled)?)
}

// The schema, ready to be evaluated, where nothing is wrong with it under this base.
#[tactic(auto, unfolding(checks::specs::Judgements::accepted_schema))]
fn accept(alloc: Global, base: &str, schema: &Doc) -> Result<Compiled, Fault>
    ensures base { IfOk result (λ c. compiled_base c ≡ base.now) }
    ensures ok { IfOk result
        (λ c. accepted_schema base.now (value schema.now) ≡ Ok (compiled_value c)) }
    ensures err { IfErr result
        (λ f. f ≢ Fault.NoRoom → is_for_pattern (fault_view f)
        (builds_under (Ok base.now) (Ok (value schema.now))) ≡ false
        → accepted_schema base.now (value schema.now) ≡ Err (fault_view f)) }
{
    let scanned = scan(alloc, &split(base), schema)?;
    compile(alloc, scanned)
}
