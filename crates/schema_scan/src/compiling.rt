//! From a scanned document to one that can be evaluated.

ghost use Rattle.std.specs.Prelude.{◌≡◌, ◌≢◌, ◌<◌, true, IfOk, OnOk, IfErr, length};
ghost use Rattle.definitions.specs.Patterns.{regular_search};
ghost use Rattle.definitions.specs.Searches.{is_regular, patterns};
ghost use Rattle.schema_scan.specs.Scans.{scanned_base, scanned_value};
ghost use Rattle.schema_scan.specs.CompiledDocuments.{compiled_base, compiled_value, compiled_view};

use crate::compiled::Compiled;
use crate::pattern_table::PatternTable;
use crate::scanned::Scanned;
use faults::Fault;
use std::alloc::Global;

/// Builds the patterns of a scanned document and keeps a copy of it.
///
/// [`Fault::BadPattern`] is for a pattern that the grammar of `regex` doesn't read, or that is too big or nests too deep
/// once it is built; a document without patterns never meets it. The only other error is want of memory.
pub fn compile(alloc: Global, scanned: Scanned<'_>) -> Result<Compiled, Fault>
    ensures ok { IfOk result
        (λ c. (compiled_base c ≡ scanned_base scanned.entry)
        × (compiled_value c ≡ scanned_value scanned.entry)) }
    ensures regular { OnOk result (is_regular regular_search (scanned_value scanned.entry) ≡ true) }
    ensures err { IfErr result
        (λ f. f ≢ Fault.NoRoom → (f ≡ Fault.BadPattern)
        × (0 < length (patterns (scanned_value scanned.entry)))) }
{
    let document = scanned.document();
    let pattern_table = PatternTable::build(alloc, scanned.patterns())?;
    let (base, table) = scanned.into_table();
    Ok(Compiled::of(alloc, base, document, table, pattern_table)?)
}

/// The document's canonical URI: that of its root's resource (JSON Schema 2020-12 Core, section 8.2.1).
pub fn canonical(compiled: &Compiled) -> &str
    ensures { result.now ≡ (compiled_view compiled.now).canonical }
{
    compiled.canonical()
}
