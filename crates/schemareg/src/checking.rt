//! A check of one text or of two, from reading them to the status.
ghost use Rattle.std.specs.Prelude.{◌≡◌, ◌∷◌, [], List, None, IfOk, IfSome, codes};
ghost use Rattle.definitions.specs.Values.{Text};
ghost use Rattle.evaluator.specs.Reports.{is_valid, report_text};
ghost use Rattle.service_forms.specs.Endings.{EndsReading, ReadsInOrder};
ghost use Rattle.schemareg.specs.Answers.{EndsBy, Prints, check_of_input, check_of_texts, check_status, report_line};

use crate::{printing, reading};
use checks::Report;
use faults::Fault;
use file_forms::place_of;
use service_forms::{Stop, Texts};
use serving::ByteWriter;
use std::alloc::Global;
use std::io::Read;

/// The text of a file, and the file's path.
#[derive(Clone, Copy)]
struct FileText<'t> {
    path: &'t str,
    text: &'t [u8],
}

/// Answers the check that `input` holds. Where its text is refused, `place` tells where, if that is known.
pub fn check_input<'a, I: Read, O: ByteWriter>(
    alloc: Global,
    input: &mut I,
    out: &mut O,
    place: &mut Option<String>,
) -> Result<u8, Stop<'a>>
    ensures ends { IfSome (I.remaining input.old) (λ bytes.
        EndsBy (check_of_input bytes) (O.writes out.old) result (O.writes out.new)) }
    ensures reading { EndsReading (codes "-" ∷ []) None result }
{
    match reading::whole(alloc, input, "-") {
        Ok(bytes) => check_text(alloc, bytes.as_slice(), out, place),
        Err(stop) => Err(stop),
    }
}

/// Answers the check that the text holds.
fn check_text<'a, O: ByteWriter>(
    alloc: Global,
    text: &[u8],
    out: &mut O,
    place: &mut Option<String>,
) -> Result<u8, Stop<'a>>
    ensures ends { EndsBy (check_of_input text.now)
        (O.writes out.old) result (O.writes out.new) }
    ensures reading { (names : List Text) → EndsReading names None result }
{
    match checks::check_input(alloc, text) {
        Ok(report) => print(report, out),
        Err(fault) => {
            *place = place_in_input(alloc, text, &fault);
            Err(Stop::Refused(fault))
        }
    }
}

/// Where in the text of standard input what is refused stands. A location is one in the schema in it, so it isn't looked for.
fn place_in_input(alloc: Global, text: &[u8], fault: &Fault) -> Option<String> {
    match fault {
        Fault::BadJson | Fault::BadNumber => place_of(alloc, "-", text, fault),
        _ => None,
    }
}

/// Answers the check of the file at `instance` by the file at `schema`, which stands under `uri`. Both are read
/// before either is judged, the schema first. Where one of them is refused, `place` tells where, if that is known.
pub fn check_files<'a, F: Texts, O: ByteWriter>(
    alloc: Global,
    files: &F,
    uri: &str,
    schema: &'a str,
    instance: &'a str,
    out: &mut O,
    place: &mut Option<String>,
) -> Result<u8, Stop<'a>>
    ensures ends { IfSome (F.text_at files.now schema.now) (λ s.
        IfSome (F.text_at files.now instance.now) (λ i.
        EndsBy (check_of_texts uri.now s i) (O.writes out.old) result (O.writes out.new))) }
    ensures reading { EndsReading (schema.now ∷ instance.now ∷ []) None result }
    ensures order { ReadsInOrder (F.is_unreadable files.now)
        (schema.now ∷ instance.now ∷ []) result }
{
    match files.whole(alloc, schema) {
        Ok(text) => {
            let schema = FileText {
                path: schema,
                text: text.as_slice(),
            };
            check_file(alloc, files, uri, schema, instance, out, place)
        }
        Err(stop) => Err(stop),
    }
}

/// Answers the check of the file at `instance` by this schema, which stands under `uri`.
fn check_file<'a, F: Texts, O: ByteWriter>(
    alloc: Global,
    files: &F,
    uri: &str,
    schema: FileText<'_>,
    instance: &'a str,
    out: &mut O,
    place: &mut Option<String>,
) -> Result<u8, Stop<'a>>
    ensures ends { IfSome (F.text_at files.now instance.now) (λ i.
        EndsBy (check_of_texts uri.now schema.entry.text.now i)
        (O.writes out.old) result (O.writes out.new)) }
    ensures reading { EndsReading (instance.now ∷ []) None result }
    ensures order { ReadsInOrder (F.is_unreadable files.now) (instance.now ∷ []) result }
{
    match files.whole(alloc, instance) {
        Ok(text) => {
            let instance = FileText {
                path: instance,
                text: text.as_slice(),
            };
            check_texts(alloc, uri, schema, instance, out, place)
        }
        Err(stop) => Err(stop),
    }
}

/// Answers the check of this instance by this schema, which stands under `uri`.
fn check_texts<'a, O: ByteWriter>(
    alloc: Global,
    uri: &str,
    schema: FileText<'_>,
    instance: FileText<'_>,
    out: &mut O,
    place: &mut Option<String>,
) -> Result<u8, Stop<'a>>
    ensures ends { EndsBy
        (check_of_texts uri.now schema.entry.text.now instance.entry.text.now)
        (O.writes out.old) result (O.writes out.new) }
    ensures reading { (names : List Text) → EndsReading names None result }
{
    match checks::check_bytes(alloc, uri, schema.text, instance.text) {
        Ok(report) => print(report, out),
        Err(fault) => {
            *place = place_in(alloc, schema, instance, &fault);
            Err(Stop::Refused(fault))
        }
    }
}

/// Where in the schema, or else in the instance, what is refused stands.
fn place_in(
    alloc: Global,
    schema: FileText<'_>,
    instance: FileText<'_>,
    fault: &Fault,
) -> Option<String> {
    match place_of(alloc, schema.path, schema.text, fault) {
        Some(place) => Some(place),
        None => place_of(alloc, instance.path, instance.text, fault),
    }
}

/// Prints the report, and gives the status of its check.
fn print<'a, O: ByteWriter>(report: Report, out: &mut O) -> Result<u8, Stop<'a>>
    ensures status { IfOk result (λ status. status ≡ check_status (is_valid report)) }
    ensures printed { Prints (O.writes out.old) (report_line (is_valid report, report_text report))
        result (O.writes out.new) }
{
    let is_valid = report.valid();
    printing::report(out, is_valid, report.into_text())
}
