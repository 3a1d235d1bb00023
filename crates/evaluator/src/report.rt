//! What a schema says of an instance.

ghost use Rattle.std.specs.Prelude.{◌≡◌, ◌≢◌, ◌<◌, List, Ok, Err, IfOk, IfErr, string_bytes, OnOk, map};
ghost use Rattle.output_texts.specs.Outputs.{counted_units, output_view, reported_units};
ghost use Rattle.basic_output.specs.Pieces.{unit_text};
ghost use Rattle.basic_output.specs.Units.{unit_texts};
ghost use Rattle.definitions.specs.Answers.{answer, answer_of, output_text};
ghost use Rattle.definitions.specs.Limits.{limits};
ghost use Rattle.definitions.specs.Reach.{reach};
ghost use Rattle.definitions.specs.Schemas.{Document};
ghost use Rattle.definitions.specs.Applied.{Outcome};
ghost use Rattle.definitions.specs.Patterns.{has_match};
ghost use Rattle.definition_laws.specs.Reaching.{HaveDistinctResources};
ghost use Rattle.faults.specs.View.{fault_view};
ghost use Rattle.json_doc.specs.Docs.{value};
ghost use Rattle.linker.specs.LinkedDocuments.{linked_documents, linked_uri};
ghost use Rattle.evaluation_log.specs.Logs.{log_view};
ghost use Rattle.evaluation_log.specs.Notes.{outcome_notes};
ghost use Rattle.evaluator.specs.Reports.{Gives, GivesOutput, Judges, is_valid, report_or_fault, report_text};

use crate::applying::Evaluation;
use crate::halt::Halt;
use crate::memory::EvaluationMemory;
use evaluation_context::{Context, Start};
use evaluation_log::Log;
use faults::Fault;
use json_doc::Doc;
use linker::Linked;
use output_texts::{NotedUnits, Output, output_text};
use std::alloc::Global;
use std::mem::replace;

/// What a schema says of an instance: whether it is valid, and the basic output (JSON Schema 2020-12 Core, 12.4.2).
#[derive(Debug, Drop)]
pub struct Report {
    valid: bool,
    text: String,
}

impl Report {
    // The report of an output.
    fn of(alloc: Global, output: &Output) -> Result<Report, Fault>
        ensures ok { IfOk result (λ r. (is_valid r, report_text r) ≡ output_view output.now) }
        ensures err { IfErr result (λ f. f ≡ Fault.NoRoom) }
    {
        let text = output.text(alloc)?;
        Ok(Report {
            valid: output.valid(),
            text,
        })
    }

    /// Whether the instance is valid.
    pub fn valid(&self) -> bool
        ensures { result ≡ is_valid self.now }
    {
        self.valid
    }

    /// The text of the basic output: compact JSON, with the names of each object in byte order.
    pub fn text(&self) -> &str
        ensures { result.now ≡ report_text self.now }
    {
        self.text.as_str()
    }

    /// The text of the basic output, as [`Report::text`] gives it, which is handed over to the caller.
    pub fn into_text(self) -> String
        ensures { string_bytes result ≡ report_text self }
    {
        self.text
    }
}

/// Applies the linked resource's root to the instance (JSON Schema 2020-12 Core, 7.1, 10 and 11). Of these faults the
/// first that holds is answered:
///
/// - [`Fault::Costly`]: there are more than 100,000 applications of schemas.
/// - [`Fault::Loop`]: a schema is applied at an instance location while it is being applied there.
/// - [`Fault::Deep`]: more than 1,000 applications nest.
///
/// [`Fault::NoRoom`] is answered where memory ran out, at whichever step.
///
/// No document that the linked resource doesn't reach changes the answer.
pub fn evaluate<'a>(alloc: Global, linked: &'a Linked, instance: &'a Doc) -> Result<Report, Fault>
    ensures ok { IfOk result
        (λ r. report_or_fault (answer has_match (linked_documents linked.now)
        (linked_uri linked.now)
        (value instance.now)) ≡ Ok (is_valid r, report_text r)) }
    ensures err { IfErr result
        (λ f. f ≢ Fault.NoRoom → answer has_match (linked_documents linked.now)
        (linked_uri linked.now) (value instance.now) ≡ Err (fault_view f)) }
    ensures whole { (G : List Document) → HaveDistinctResources G
        → linked_documents linked.now ≡ reach G (linked_uri linked.now)
        → Gives result (answer has_match G (linked_uri linked.now) (value instance.now)) }
{
    evaluate_with(alloc, linked, instance, &mut EvaluationMemory::new(alloc))
}

/// Applies the linked resource's root to the instance as [`evaluate`] does, with the same faults, in memory that was kept from
/// earlier evaluations. The next evaluation can use it again, whether this one answers with a report or with a fault. Nothing of
/// it shows in an answer.
pub fn evaluate_with<'a>(
    alloc: Global,
    linked: &'a Linked,
    instance: &'a Doc,
    memory: &mut EvaluationMemory,
) -> Result<Report, Fault>
    ensures ok { IfOk result
        (λ r. report_or_fault (answer has_match (linked_documents linked.now)
        (linked_uri linked.now)
        (value instance.now)) ≡ Ok (is_valid r, report_text r)) }
    ensures err { IfErr result
        (λ f. f ≢ Fault.NoRoom → answer has_match (linked_documents linked.now)
        (linked_uri linked.now) (value instance.now) ≡ Err (fault_view f)) }
    ensures whole { (G : List Document) → HaveDistinctResources G
        → linked_documents linked.now ≡ reach G (linked_uri linked.now)
        → Gives result (answer has_match G (linked_uri linked.now) (value instance.now)) }
{
    match evaluate_output(alloc, linked, instance, memory) {
        Err(fault) => Err(fault),
        Ok(output) => {
            let report = Report::of(alloc, &output);
            memory.take_back(output);
            report
        }
    }
}

/// Applies the linked resource's root to the instance as [`evaluate_with`] does, with the same faults. The answer takes the
/// memory of its units along; [`EvaluationMemory::take_back`] gives it back.
pub fn evaluate_output<'a>(
    alloc: Global,
    linked: &'a Linked,
    instance: &'a Doc,
    memory: &mut EvaluationMemory,
) -> Result<Output, Fault>
    ensures ok { IfOk result
        (λ o. report_or_fault (answer has_match (linked_documents linked.now)
        (linked_uri linked.now)
        (value instance.now)) ≡ Ok (output_view o)) }
    ensures err { IfErr result
        (λ f. f ≢ Fault.NoRoom → answer has_match (linked_documents linked.now)
        (linked_uri linked.now) (value instance.now) ≡ Err (fault_view f)) }
    ensures whole { (G : List Document) → HaveDistinctResources G
        → linked_documents linked.now ≡ reach G (linked_uri linked.now)
        → GivesOutput result (answer has_match G (linked_uri linked.now) (value instance.now)) }
{
    let root = linked.root(alloc);
    let schema = root.schema;
    let EvaluationMemory { log, context } = replace(memory, EvaluationMemory::new(alloc));
    let start = Start::of(alloc, root, context)?;
    let context = Context::new(alloc, linked, start);
    let log = Log::within(alloc, log)?;
    let mut evaluation = Evaluation::new(alloc, linked, context, log);
    let passed = evaluation.apply_root(schema, instance);
    let verdict = judged(passed, &evaluation.log);
    let (units, kept) = evaluation.into_units();
    *memory = kept;
    output_or_fault(verdict, units, memory)
}

// The output with these units; after a fault their memory is kept.
fn output_or_fault(
    verdict: Result<bool, Fault>,
    units: Box<NotedUnits>,
    memory: &mut EvaluationMemory,
) -> Result<Output, Fault>
    ensures { (o : Outcome) → Judges verdict units.value o
        → GivesOutput result (answer_of limits.applications o) }
{
    match verdict {
        Ok(valid) => Ok(Output::new(valid, units)),
        Err(fault) => {
            memory.keep(units);
            Err(fault)
        }
    }
}

// The report of what was noted.
pub(crate) fn reported(
    alloc: Global,
    passed: Result<bool, Halt>,
    log: &Log<'_>,
) -> Result<Report, Fault>
    ensures { (o : Outcome) → IfOk passed (λ b. b ≡ o.valid)
        → OnOk passed (log_view log.now ≡ outcome_notes o)
        → IfErr passed (λ h. h ≢ Halt.NoRoom → (h ≡ Halt.Costly) × (limits.applications < o.count))
        → Gives result (answer_of limits.applications o) }
{
    match judged(passed, log) {
        Ok(valid) => noted_report(alloc, valid, &log.units),
        Err(fault) => Err(fault),
    }
}

// Whether the instance passed, or the fault that what was noted tells.
fn judged(passed: Result<bool, Halt>, log: &Log<'_>) -> Result<bool, Fault>
    ensures { (o : Outcome) → IfOk passed (λ b. b ≡ o.valid)
        → OnOk passed (log_view log.now ≡ outcome_notes o)
        → IfErr passed (λ h. h ≢ Halt.NoRoom → (h ≡ Halt.Costly) × (limits.applications < o.count))
        → Judges result log.now.units.value o }
{
    match passed {
        Ok(valid) => {
            if log.looped {
                return Err(Fault::Loop);
            }
            if log.deep {
                return Err(Fault::Deep);
            }
            Ok(valid)
        }
        Err(halt) => Err(halt.fault()),
    }
}

// The report of all that was noted.
fn noted_report(alloc: Global, valid: bool, units: &NotedUnits) -> Result<Report, Fault>
    ensures valid { IfOk result (λ r. is_valid r ≡ valid) }
    ensures text { (o : Outcome) → o.valid ≡ valid
        → unit_texts (counted_units valid units.now) ≡ map (unit_text valid) (reported_units o)
        → IfOk result (λ r. output_text o ≡ report_text r) }
    ensures err { IfErr result (λ f. f ≡ Fault.NoRoom) }
{
    let text = output_text(alloc, valid, units.counted(valid))?;
    Ok(Report { valid, text })
}
