//! A document that isn't kept yet.

ghost use Rattle.std.specs.Prelude.{◌≡◌, ◌≢◌, ◌<◌, true, None, Some, IfErr, IfOk, OnOk};
ghost use Rattle.definitions.specs.Patterns.{regular_search};
ghost use Rattle.definitions.specs.Scanning.{scan_fault};
ghost use Rattle.definitions.specs.Searches.{is_regular};
ghost use Rattle.definitions.specs.Uris.{recompose};
ghost use Rattle.definitions.specs.Values.{nesting};
ghost use Rattle.faults.specs.View.{fault_view};
ghost use Rattle.json_doc.specs.Docs.{value};
ghost use Rattle.schema_scan.specs.CompiledDocuments.{compiled_base, compiled_value};
ghost use Rattle.shared_cache.specs.Readings.{is_read_as, read_value};
ghost use Rattle.shared_cache.specs.Refusals.{Refuses};

use crate::key::Key;
use faults::Fault;
use json_doc::{Doc, Scratch, read_with};
use schema_scan::{Compiled, compile, scan};
use std::alloc::Global;
use std::rc::Rc;
use uri_ref::Parts;

// The document that the key's text spells, which is read as a value. The only error is want of memory.
pub(crate) fn read_again(alloc: Global, scratch: &mut Scratch, key: &Key) -> Result<Doc, Fault>
    requires { is_read_as key.now.1 (read_value key.now.1) ≡ true }
    ensures ok { IfOk result (λ d. value d ≡ read_value key.now.1) }
    ensures err { IfErr result (λ f. f ≡ Fault.NoRoom) }
{
    match read_with(alloc, scratch, key.text().as_bytes()) {
        Ok(document) => Ok(document),
        Err(_) => Err(Fault::NoRoom),
    }
}

// The document under this base, scanned and compiled.
pub(crate) fn compiled_anew(
    alloc: Global,
    base: &Parts,
    document: &Doc,
) -> Result<Rc<Compiled>, Fault>
    ensures base { IfOk result (λ c. compiled_base c.value ≡ recompose base.now) }
    ensures value { IfOk result (λ c. compiled_value c.value ≡ value document.now) }
    ensures sound { OnOk result (scan_fault (recompose base.now) (value document.now) ≡ None) }
    ensures regular { OnOk result (is_regular regular_search (value document.now) ≡ true) }
    ensures err { IfErr result
        (λ f. f ≢ Fault.NoRoom → Refuses (recompose base.now) (value document.now) (fault_view f)) }
{
    let scanned = scan(alloc, base, document)?;
    let compiled = compile(alloc, scanned)?;
    Ok(Rc::new(alloc, compiled)?)
}

// The fault of a document that nests too deep, or want of memory.
pub(crate) fn refusal(alloc: Global, base: &Parts, document: &Doc) -> Fault
    requires { 120 < nesting (value document.now) }
    ensures { result ≢ Fault.NoRoom
        → scan_fault (recompose base.now) (value document.now) ≡ Some (fault_view result) }
{
    match scan(alloc, base, document) {
        Ok(_) => unreachable!(),
        Err(fault) => fault,
    }
}
