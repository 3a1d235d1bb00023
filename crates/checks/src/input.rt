//! A check of one text that holds the schema, the instance and the URI.

ghost use Rattle.std.specs.Prelude.{◌≡◌, ◌≢◌, false, Ok, Err, IfOk, IfErr, option_map, codes};
ghost use Rattle.definitions.specs.Values.{get};
ghost use Rattle.evaluator.specs.Reports.{is_valid, report_text};
ghost use Rattle.faults.specs.View.{fault_view};
ghost use Rattle.json_doc.specs.Docs.{value};
ghost use Rattle.checks.specs.Judgements.{is_for_pattern, input_of, input_in, judgement_of, builds_patterns_of, uri_in, member_in};

use crate::check::check_docs;
use evaluator::Report;
use json_doc::{Doc, Fault, read};
use std::alloc::Global;

/// The URI under which a schema is taken to stand where none is given.
pub const DEFAULT_URI: &str = "urn:schemareg:root";

/// Checks the member `instance` of a JSON object against its member `schema`, which is taken to stand under the base form
/// of the text of its member `uri`, or of [`DEFAULT_URI`] where there is no such member. Other members are ignored.
///
/// The first of these faults is answered: `BadJson` and `BadNumber` of the whole text, `BadInput` where it is no object
/// with both members or `uri` is no text, then `BadUri`, and those of a check from `NotObject` on. `NoRoom` may take the
/// place of any answer.
pub fn check_input(alloc: Global, bytes: &[u8]) -> Result<Report, Fault>
    ensures ok { IfOk result
        (λ r. judgement_of (input_of bytes.now) ≡ Ok (is_valid r, report_text r)) }
    ensures err { IfErr result
        (λ f. f ≢ Fault.NoRoom → is_for_pattern (fault_view f)
        (builds_patterns_of (input_of bytes.now))
        ≡ false → judgement_of (input_of bytes.now) ≡ Err (fault_view f)) }
{
    let input = read(alloc, bytes)?;
    check_object(alloc, &input)
}

fn check_object(alloc: Global, input: &Doc) -> Result<Report, Fault>
    ensures ok { IfOk result
        (λ r. judgement_of (input_in (value input.now)) ≡ Ok (is_valid r, report_text r)) }
    ensures err { IfErr result
        (λ f. f ≢ Fault.NoRoom → is_for_pattern (fault_view f)
        (builds_patterns_of (input_in (value input.now))) ≡ false
        → judgement_of (input_in (value input.now)) ≡ Err (fault_view f)) }
{
    let uri = uri_in(input)?;
    let schema = member_in(input, "schema")?;
    let instance = member_in(input, "instance")?;
    check_docs(alloc, uri, schema, instance)
}

fn uri_in(input: &Doc) -> Result<&str, Fault>
    ensures ok { IfOk result (λ uri. uri_in (get (codes "uri") (value input.now)) ≡ Ok uri.now) }
    ensures err { IfErr result
        (λ f. uri_in (get (codes "uri") (value input.now)) ≡ Err (fault_view f)) }
{
    match input.get("uri") {
        None => Ok(DEFAULT_URI),
        Some(uri) => match uri.as_str() {
            Some(uri) => Ok(uri),
            None => Err(Fault::BadInput),
        },
    }
}

fn member_in<'a>(input: &'a Doc, name: &str) -> Result<&'a Doc, Fault>
    ensures ok { IfOk result
        (λ member. member_in (get name.now (value input.now)) ≡ Ok (value member.now)) }
    ensures err { IfErr result
        (λ f. member_in (get name.now (value input.now)) ≡ Err (fault_view f)) }
{
    match input.get(name) {
        Some(member) => Ok(member),
        None => Err(Fault::BadInput),
    }
}
