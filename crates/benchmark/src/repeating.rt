//! Each part of a check, so often.

ghost use Rattle.std.specs.Prelude.{◌≡◌, IfOk};
ghost use Rattle.checks.specs.Judgements.{input_of, judgement_of};
ghost use Rattle.definitions.specs.Answers.{answer};
ghost use Rattle.definitions.specs.Patterns.{has_match};
ghost use Rattle.evaluator.specs.Reports.{report_or_fault};
ghost use Rattle.json_doc.specs.Docs.{value};
ghost use Rattle.linker.specs.LinkedDocuments.{linked_documents, linked_uri};
ghost use Rattle.benchmark.specs.Counts.{valid_count};

use checks::check_input;
use evaluator::{EvaluationMemory, Evaluator, evaluate_with};
use faults::Fault;
use json::is_valid;
use json_doc::{Doc, Scratch, read_with};
use linker::{Linked, ListSource, link};
use schema_scan::{canonical, compile, scan};
use std::alloc::Global;
use std::rc::Rc;
use uri_ref::split;

/// Tests the syntax of the text so often, in memory that is kept from one turn to the next, and answers how often; a text that
/// isn't JSON is BadJson.
pub fn repeat_syntax(alloc: Global, text: &str, times: u32) -> Result<u32, Fault>
    ensures { IfOk result (λ count. count ≡ times) }
{
    let mut scratch = Scratch::new(alloc);
    for _ in 0..times {
        if !is_valid(text, &mut scratch)? {
            return Err(Fault::BadJson);
        }
    }
    Ok(times)
}

/// Reads the text so often, in memory that is kept from one turn to the next, and answers how often.
pub fn repeat_read(alloc: Global, text: &[u8], times: u32) -> Result<u32, Fault>
    ensures { IfOk result (λ count. count ≡ times) }
{
    let mut scratch = Scratch::new(alloc);
    for _ in 0..times {
        read_with(alloc, &mut scratch, text)?;
    }
    Ok(times)
}

/// The schema, which stands under this base, linked with itself alone.
pub fn linked(alloc: Global, base: &str, schema: &Doc) -> Result<Linked, Fault> {
    let scanned = scan(alloc, &split(base), schema)?;
    let compiled = compile(alloc, scanned)?;
    let uri = canonical(&compiled).to_owned(alloc)?;
    let mut source = ListSource::new(alloc);
    source.add(Rc::new(alloc, compiled)?)?;
    link(alloc, &mut source, uri.as_str())
}

/// Scans, compiles and links the schema so often, and answers how often.
pub fn repeat_link(alloc: Global, base: &str, schema: &Doc, times: u32) -> Result<u32, Fault>
    ensures { IfOk result (λ count. count ≡ times) }
{
    for _ in 0..times {
        linked(alloc, base, schema)?;
    }
    Ok(times)
}

/// Evaluates the instance so often, up to the text of the output, in memory that is kept from one turn to the next, and answers
/// how often it was valid.
pub fn repeat_validate(
    alloc: Global,
    linked: &Linked,
    instance: &Doc,
    times: u32,
) -> Result<u32, Fault>
    ensures { IfOk result (λ count. count ≡ valid_count (report_or_fault (answer has_match
        (linked_documents linked.now) (linked_uri linked.now) (value instance.now))) times) }
{
    let mut memory = EvaluationMemory::new(alloc);
    let mut valid = 0;
    for _ in 0..times {
        let said = evaluate_with(alloc, linked, instance, &mut memory)?;
        if said.valid() {
            valid += 1;
        }
    }
    Ok(valid)
}

/// Evaluates the instance so often by one evaluator, up to the text of the output, and answers how often it was valid.
pub fn repeat_evaluate(
    alloc: Global,
    linked: &Linked,
    instance: &Doc,
    times: u32,
) -> Result<u32, Fault>
    ensures { IfOk result (λ count. count ≡ valid_count (report_or_fault (answer has_match
        (linked_documents linked.now) (linked_uri linked.now) (value instance.now))) times) }
{
    let mut evaluator = Evaluator::new(alloc, linked)?;
    let mut valid = 0;
    for _ in 0..times {
        if evaluator.evaluate(instance)?.valid() {
            valid += 1;
        }
    }
    Ok(valid)
}

/// Does the whole check that the text holds so often, and answers how often the instance was valid.
pub fn repeat_check(alloc: Global, text: &[u8], times: u32) -> Result<u32, Fault>
    ensures { IfOk result (λ count. count ≡ valid_count (judgement_of (input_of text.now)) times) }
{
    let mut valid = 0;
    for _ in 0..times {
        let report = check_input(alloc, text)?;
        if report.valid() {
            valid += 1;
        }
    }
    Ok(valid)
}
