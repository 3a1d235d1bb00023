//! References that lead nowhere (JSON Schema 2020-12 Core, section 8.2.3).

ghost use Rattle.std.specs.Prelude.{◌≡◌, IfErr, IfOk, is_some, map};
ghost use Rattle.definitions.specs.Schemas.{table_of};
ghost use Rattle.definitions.specs.Targets.{target};
ghost use Rattle.schema_scan.specs.CompiledDocuments.{compiled_view};
ghost use Rattle.file_checks.specs.FileTexts.{dangling_references};

use crate::documents::FileDocuments;
use faults::Fault;
use linker::{Source, names_in};
use schema_scan::Compiled;
use std::alloc::{AllocError, Global};
use uri_ref::{split, without_fragment};

impl FileDocuments {
    ghost use Rattle.file_checks.specs.FileSources.{file_documents};

    /// The document's absolute references that name no schema of these documents, in the order of a walk; some may stand more
    /// than once. The only error is want of memory.
    pub fn dangling_references<'a>(
        &self,
        alloc: Global,
        document: &'a Compiled,
    ) -> Result<Vec<&'a str>, Fault>
        ensures ok { IfOk result (λ rs. map (λ r. r.now) rs.items
            ≡ dangling_references (file_documents self.now) (compiled_view document.now)) }
        ensures err { IfErr result (λ f. f ≡ Fault.NoRoom) }
    {
        let mut dangling = Vec::new(alloc);
        for reference in document.references() {
            if !self.names_schema(alloc, reference)? {
                dangling.push(reference.as_str())?;
            }
        }
        Ok(dangling)
    }

    // Whether the absolute reference names a schema of these documents. A fragment that can't be read names nothing.
    fn names_schema(&self, alloc: Global, reference: &str) -> Result<bool, AllocError>
        ensures { IfOk result (λ named. named
            ≡ is_some (target (table_of (file_documents self.now)) reference.now)) }
    {
        let uri = without_fragment(reference);
        let mut source = &self.source;
        match Source::holding(&mut source, alloc, uri)? {
            Some(document) => names_in(alloc, &document, uri, split(reference).fragment()),
            None => Ok(false),
        }
    }
}
