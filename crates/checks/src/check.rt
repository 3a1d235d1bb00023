//! A check of two texts.

ghost use Rattle.std.specs.Prelude.{◌≡◌, ◌≢◌, false, [], ◌∷◌, Ok, Err, IfOk, IfErr};
ghost use Rattle.definitions.specs.Texts.{parsed_value};
ghost use Rattle.evaluator.specs.Reports.{is_valid, report_text};
ghost use Rattle.faults.specs.View.{fault_view};
ghost use Rattle.json_doc.specs.Docs.{value};
ghost use Rattle.linker.specs.ListedDocuments.{listed_documents};
ghost use Rattle.schema_scan.specs.CompiledDocuments.{compiled_base, compiled_value, compiled_view};
ghost use Rattle.checks.specs.Judgements.{judgement, accepted_schema, said_by, is_for_pattern, builds_patterns, builds_under};

use evaluator::{Report, evaluate};
use json_doc::{Doc, Fault, read};
use linker::{ListSource, link};
use schema_scan::{Compiled, canonical, compile, scan};
use std::alloc::Global;
use std::rc::Rc;
use uri_ref::{base_form, split};

/// Checks the JSON text `instance` against the JSON text `schema`, which is taken to stand under the base form of `uri`
/// (RFC 3986, section 5.1): the URI without dot segments. References lead to schemas of the same document (JSON Schema
/// 2020-12 Core, section 8.2.3).
///
/// The first of these faults is answered: `BadUri`, where `uri` has a fragment, no scheme or no base form; of the schema
/// `BadJson`, `BadNumber`, those of [`scan`] and `BadPattern`; of the instance `BadJson` and `BadNumber`; `Unresolved`, with
/// the least in byte order of the references that name no schema; and `Costly`, `Loop` and `Deep`. `BadPattern` is also for
/// a pattern that is too big or nests too deep once it is built. `NoRoom` may take the place of any answer.
#[tactic(auto, unfolding(crate::specs::Judgements::judgement))]
pub fn check_bytes(
    alloc: Global,
    uri: &str,
    schema: &[u8],
    instance: &[u8],
) -> Result<Report, Fault>
    ensures ok { IfOk result
        (λ r. judgement uri.now (parsed_value schema.now) (parsed_value instance.now)
        ≡ Ok (is_valid r, report_text r)) }
    ensures err { IfErr result
        (λ f. f ≢ Fault.NoRoom → is_for_pattern (fault_view f)
        (builds_patterns uri.now (parsed_value schema.now)) ≡ false
        → judgement uri.now (parsed_value schema.now) (parsed_value instance.now)
        ≡ Err (fault_view f)) }
{
    let base = base_form(alloc, uri)?;
    let schema = read(alloc, schema)?;
    let compiled = accept(alloc, base.as_str(), &schema)?;
    let instance = read(alloc, instance)?;
    judge(alloc, compiled, &instance)
}

/// Checks the value `instance` against the value `schema`, which is taken to stand under the base form of `uri`, as
/// [`check_bytes`] checks two texts. The faults are the same and come in the same order, but for `BadJson` and `BadNumber`, which
/// no value has.
#[tactic(auto, unfolding(crate::specs::Judgements::judgement))]
pub(crate) fn check_docs(
    alloc: Global,
    uri: &str,
    schema: &Doc,
    instance: &Doc,
) -> Result<Report, Fault>
    ensures ok { IfOk result
        (λ r. judgement uri.now (Ok (value schema.now)) (Ok (value instance.now))
        ≡ Ok (is_valid r, report_text r)) }
    ensures err { IfErr result
        (λ f. f ≢ Fault.NoRoom → is_for_pattern (fault_view f)
        (builds_patterns uri.now (Ok (value schema.now))) ≡ false
        → judgement uri.now (Ok (value schema.now)) (Ok (value instance.now))
        ≡ Err (fault_view f)) }
{
    let base = base_form(alloc, uri)?;
    let compiled = accept(alloc, base.as_str(), schema)?;
    judge(alloc, compiled, instance)
}

// The schema, ready to be evaluated, where nothing is wrong with it.
#[tactic(auto, unfolding(crate::specs::Judgements::accepted_schema))]
fn accept(alloc: Global, base: &str, schema: &Doc) -> Result<Compiled, Fault>
    ensures base { IfOk result (λ c. compiled_base c ≡ base.now) }
    ensures ok { IfOk result
        (λ c. accepted_schema base.now (value schema.now) ≡ Ok (compiled_value c)) }
    ensures err { IfErr result
        (λ f. f ≢ Fault.NoRoom → is_for_pattern (fault_view f)
        (builds_under (Ok base.now) (Ok (value schema.now))) ≡ false
        → accepted_schema base.now (value schema.now) ≡ Err (fault_view f)) }
{
    let scanned = scan(alloc, &split(base), schema)?;
    compile(alloc, scanned)
}

// What the document says of the instance.
fn judge(alloc: Global, document: Compiled, instance: &Doc) -> Result<Report, Fault>
    ensures ok { IfOk result
        (λ r. said_by (compiled_view document) (value instance.now)
        ≡ Ok (is_valid r, report_text r)) }
    ensures err { IfErr result
        (λ f. f ≢ Fault.NoRoom → said_by (compiled_view document) (value instance.now)
        ≡ Err (fault_view f)) }
{
    let uri = canonical(&document).to_owned(alloc)?;
    let mut source = alone(alloc, document)?;
    match link(alloc, &mut source, uri.as_str()) {
        Ok(linked) => evaluate(alloc, &linked, instance),
        Err(fault) => Err(fault),
    }
}

// A source with this document alone.
fn alone(alloc: Global, document: Compiled) -> Result<ListSource, Fault>
    ensures ok { IfOk result (λ s. listed_documents s ≡ compiled_view document ∷ []) }
    ensures err { IfErr result (λ f. f ≡ Fault.NoRoom) }
{
    let mut source = ListSource::new(alloc);
    source.add(Rc::new(alloc, document)?)?;
    Ok(source)
}
