//! Validations by the documents of a source.

ghost use Rattle.std.specs.Prelude.{◌≡◌, ◌≢◌, IfOk, IfErr, Ok, string_bytes};
ghost use Rattle.output_texts.specs.Outputs.{output_view};
ghost use Rattle.definitions.specs.Patterns.{regular_search};
ghost use Rattle.definitions.specs.Registries.{Registry, body_value, documents_seen, refused, validate, validated};
ghost use Rattle.definitions.specs.Resolution.{base_form};
ghost use Rattle.definitions.specs.Runs.{IsAnswer};
ghost use Rattle.faults.specs.View.{fault_view};
ghost use Rattle.json_doc.specs.Docs.{value};
ghost use Rattle.requests.specs.Views.{reply_view};
ghost use Rattle.tenant_hub.specs.CachedLinks.{AreLinksOf};
ghost use Rattle.tenant_hub.specs.SourceReplies.{reply_by, validation_over};

use crate::links::Links;
use evaluator::{EvaluationMemory, evaluate_output};
use json_doc::{Doc, Scratch};
use linker::{Linked, Source, link};
use output_texts::Output;
use requests::{Fault, Reply};
use std::alloc::Global;
use tenants_file::read_body_with;
use uri_ref::base_form;

// The basic output for the instance that the bytes spell, by the resource of the URI among the source's documents, of which
// the links are.
//
// The first of these faults is answered: `BadUri`, `TooLarge`, `BadJson`, `BadNumber`, `NotFound`, `Unresolved`, `Costly`,
// `Loop`, `Deep`. `NoRoom` may take the place of any answer. The source keeps the documents that it had.
pub(crate) fn validation_reply<S: Source>(
    alloc: Global,
    scratch: &mut Scratch,
    memory: &mut EvaluationMemory,
    links: &mut Links,
    source: &mut S,
    uri: &str,
    body: &[u8],
) -> Reply
    requires { AreLinksOf (S.documents source.old) links.old }
    ensures answer { (g : Registry) → documents_seen g ≡ S.documents source.old
        → IsAnswer regular_search g (validate uri.now body.now) (reply_view result) g }
    ensures linked { AreLinksOf (S.documents source.old) links.new }
    ensures same { S.documents source.new ≡ S.documents source.old }
{
    match output_for(alloc, scratch, memory, links, source, uri, body) {
        Ok(output) => Reply::Output(output),
        Err(fault) => Reply::Refused(fault),
    }
}

fn output_for<S: Source>(
    alloc: Global,
    scratch: &mut Scratch,
    memory: &mut EvaluationMemory,
    links: &mut Links,
    source: &mut S,
    uri: &str,
    body: &[u8],
) -> Result<Output, Fault>
    requires { AreLinksOf (S.documents source.old) links.old }
    ensures ok { IfOk result (λ o. validation_over (S.documents source.old)
        (base_form uri.now) (body_value body.now) ≡ validated (output_view o).1) }
    ensures err { IfErr result (λ f. f ≢ Fault.NoRoom → validation_over (S.documents source.old)
        (base_form uri.now) (body_value body.now) ≡ refused (fault_view f)) }
    ensures linked { AreLinksOf (S.documents source.old) links.new }
    ensures same { S.documents source.new ≡ S.documents source.old }
{
    // A URI by which a link is kept is a base form: it needn't be split and put together.
    links.promote(uri);
    if let Some(linked) = links.latest(uri) {
        let given = read_body_with(alloc, scratch, body)?;
        return output_by(alloc, linked, &given, memory);
    }
    let base = base_form(alloc, uri)?;
    let instance = read_body_with(alloc, scratch, body)?;
    output_at(alloc, memory, links, source, base, &instance)
}

// The basic output of the instance by the resource of this base.
fn output_at<S: Source>(
    alloc: Global,
    memory: &mut EvaluationMemory,
    links: &mut Links,
    source: &mut S,
    base: String,
    instance: &Doc,
) -> Result<Output, Fault>
    requires links { AreLinksOf (S.documents source.old) links.old }
    requires base { base_form (string_bytes base) ≡ Ok (string_bytes base) }
    ensures ok { IfOk result (λ o. validation_over (S.documents source.old)
        (Ok (string_bytes base)) (Ok (value instance.now)) ≡ validated (output_view o).1) }
    ensures err { IfErr result (λ f. f ≢ Fault.NoRoom → validation_over (S.documents source.old)
        (Ok (string_bytes base)) (Ok (value instance.now)) ≡ refused (fault_view f)) }
    ensures linked { AreLinksOf (S.documents source.old) links.new }
    ensures same { S.documents source.new ≡ S.documents source.old }
{
    links.promote(base.as_str());
    if let Some(linked) = links.latest(base.as_str()) {
        return output_by(alloc, linked, instance, memory);
    }
    let linked = link(alloc, source, base.as_str())?;
    let output = output_by(alloc, &linked, instance, memory)?;
    links.keep(base, linked);
    Ok(output)
}

// The basic output of the instance by what was linked.
fn output_by(
    alloc: Global,
    linked: &Linked,
    instance: &Doc,
    memory: &mut EvaluationMemory,
) -> Result<Output, Fault>
    ensures ok { IfOk result (λ o. reply_by linked.now (value instance.now)
        ≡ validated (output_view o).1) }
    ensures err { IfErr result (λ f. f ≢ Fault.NoRoom
        → reply_by linked.now (value instance.now) ≡ refused (fault_view f)) }
{
    evaluate_output(alloc, linked, instance, memory)
}
