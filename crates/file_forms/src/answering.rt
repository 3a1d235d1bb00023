//! The answer for one instance.

ghost use Rattle.std.specs.Prelude.{◌≡◌, ◌++◌, ◌∷◌, [], IfErr, IfOk, string_bytes};
ghost use Rattle.definitions.specs.Bytes.{line_feed};
ghost use Rattle.evaluator.specs.Reports.{is_valid, report_text};
ghost use Rattle.file_checks.specs.FileSources.{checker_linked};
ghost use Rattle.file_forms.specs.Judged.{ByLinked, IsVerdict};
ghost use Rattle.file_forms.specs.Printed.{IsPrinted, verdict_by};
ghost use Rattle.plain_reports.specs.JsonLines.{json_line_text};

use crate::linked_schemas::LinkedSchemas;
use command_line::Format;
use evaluator::Report;
use file_checks::{Checker, Fault, Verdict};
use plain_reports::{Instance, Style, error_lines, json_line};
use std::alloc::Global;

/// What is printed of each instance.
#[derive(Clone, Copy, Debug)]
pub(crate) struct Printing {
    pub(crate) format: Format,
    pub(crate) colours: bool,
    pub(crate) quiet: bool,
}

/// What came of the instance, and what is printed of it: the evaluation over the documents that the checker's resource was
/// linked among, and none but these. The faults are those of [`Checker::check`].
pub(crate) fn answer(
    alloc: Global,
    printing: Printing,
    checker: &mut Checker<'_>,
    instance: Instance<'_>,
) -> Result<(Verdict, String), Fault>
    ensures judged { ByLinked (checker_linked checker.old) printing (λ judge.
        IsVerdict judge instance.entry.path.now instance.entry.line instance.entry.text.now result) }
    ensures same { checker_linked checker.new ≡ checker_linked checker.old }
{
    let report = checker.check(instance.text)?;
    let schemas = LinkedSchemas(checker.linked());
    let text = answer_text(alloc, printing, schemas, instance, &report)?;
    Ok((verdict_of(&report), text))
}

/// What is printed of an instance of which this is the report. The only error is want of memory, since report and instance
/// are texts that were read.
fn answer_text(
    alloc: Global,
    printing: Printing,
    schemas: LinkedSchemas<'_>,
    instance: Instance<'_>,
    report: &Report,
) -> Result<String, Fault>
    ensures ok { IfOk result (λ s. IsPrinted printing.format printing.quiet instance.entry.path.now
        instance.entry.line (is_valid report.now, report_text report.now) (string_bytes s)) }
    ensures err { IfErr result (λ f. f ≡ Fault.NoRoom) }
{
    match printed(alloc, printing, schemas, instance, report) {
        Ok(text) => Ok(text),
        Err(_) => Err(Fault::NoRoom),
    }
}

fn printed(
    alloc: Global,
    printing: Printing,
    schemas: LinkedSchemas<'_>,
    instance: Instance<'_>,
    report: &Report,
) -> Result<String, Fault>
    ensures { IfOk result (λ s. IsPrinted printing.format printing.quiet instance.entry.path.now
        instance.entry.line (is_valid report.now, report_text report.now) (string_bytes s)) }
{
    match printing.format {
        Format::Json if report.valid() && printing.quiet => Ok(String::new(alloc)),
        Format::Json => line_of_json(alloc, instance, report.text()),
        _ if report.valid() => Ok(String::new(alloc)),
        Format::Text => {
            let colours = printing.colours;
            error_lines(
                alloc,
                &schemas,
                instance,
                report.text(),
                Style::Text { colours },
            )
        }
        Format::Github => error_lines(alloc, &schemas, instance, report.text(), Style::Github),
    }
}

fn line_of_json(alloc: Global, instance: Instance<'_>, output: &str) -> Result<String, Fault>
    ensures { IfOk result (λ s. string_bytes s
        ≡ json_line_text instance.entry.path.now instance.entry.line output.now ++ line_feed ∷ []) }
{
    let mut line = json_line(alloc, instance, output)?;
    line.push_str("\n")?;
    Ok(line)
}

fn verdict_of(report: &Report) -> Verdict
    ensures { result ≡ verdict_by (is_valid report.now) }
{
    if report.valid() {
        Verdict::Valid
    } else {
        Verdict::Invalid
    }
}
