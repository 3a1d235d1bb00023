//! Evaluations by one linked resource, one after the other.

ghost use Rattle.std.specs.Prelude.{◌≡◌, ◌≢◌, List, true, Ok, Err, IfOk, IfErr, OnOk};
ghost use Rattle.std.proofs.Props.{props};
ghost use Rattle.definitions.specs.Answers.{answer};
ghost use Rattle.definitions.specs.Patterns.{has_match};
ghost use Rattle.definitions.specs.Reach.{reach};
ghost use Rattle.definitions.specs.Schemas.{Document};
ghost use Rattle.definition_laws.specs.Reaching.{HaveDistinctResources};
ghost use Rattle.faults.specs.View.{fault_view};
ghost use Rattle.json_doc.specs.Docs.{value};
ghost use Rattle.linker.specs.LinkedDocuments.{linked_documents, linked_uri};
ghost use Rattle.linker.specs.ValueSets.{value_set};
ghost use Rattle.evaluation_log.specs.Logs.{log_view};
ghost use Rattle.evaluation_log.specs.Notes.{no_notes};
ghost use Rattle.evaluator.specs.Reports.{Gives, is_valid, linked_answer, report_or_fault, report_text};
ghost use Rattle.evaluator.specs.Roots.{IsAtRoot};

use crate::applying::Evaluation;
use crate::memory::EvaluationMemory;
use crate::report::{Report, reported};
use evaluation_context::{Context, Start};
use evaluation_log::Log;
use faults::Fault;
use json_doc::Doc;
use linker::Linked;
use std::alloc::{AllocError, Global};

/// Applies the root of one linked resource to instances, one after the other, each of which outlives it: the root is found once,
/// and memory stays from one evaluation to the next, as much as the largest of them took. Whoever reads an instance, evaluates
/// it and lets it go wants [`evaluate_with`](crate::evaluate_with).
///
/// Contracts see the linked resource by `evaluator_linked`.
#[derive(Drop)]
pub struct Evaluator<'a> {
    evaluation: Evaluation<'a>,
    /// The root.
    schema: &'a Doc,
    /// Whether the evaluation stands at the root: one that halted stands where it halted.
    is_at_root: bool,
    ghost standing: { is_at_root ≡ true → IsAtRoot evaluation schema.now } by { Prim.hlevel (props, value_set) },
    ghost nothing_noted: { log_view evaluation.log ≡ no_notes },
}

impl<'a> Evaluator<'a> {
    ghost use Rattle.evaluator.specs.Evaluators.{evaluator_linked};

    /// By this linked resource. The only error is want of memory.
    pub fn new(alloc: Global, linked: &'a Linked) -> Result<Evaluator<'a>, Fault>
        ensures ok { IfOk result (λ e. evaluator_linked e ≡ linked.now) }
        ensures err { IfErr result (λ f. f ≡ Fault.NoRoom) }
    {
        Ok(Evaluator::at_root(alloc, linked)?)
    }

    // An evaluator by this linked resource, which stands at its root. The only error is want of memory.
    fn at_root(alloc: Global, linked: &'a Linked) -> Result<Evaluator<'a>, AllocError>
        ensures linked { IfOk result (λ e. evaluator_linked e ≡ linked.now) }
        ensures there { IfOk result (λ e. e.is_at_root ≡ true) }
    {
        let root = linked.root(alloc);
        let schema = root.schema;
        let EvaluationMemory { log, context } = EvaluationMemory::new(alloc);
        let start = Start::of(alloc, root, context)?;
        let context = Context::new(alloc, linked, start);
        let log = Log::within(alloc, log)?;
        Ok(Evaluator {
            evaluation: Evaluation::new(alloc, linked, context, log),
            schema,
            is_at_root: true,
        })
    }

    /// What the resource's root says of the instance: as [`evaluate`](crate::evaluate) tells it, with the same faults. After any
    /// of them it answers the next instance as before, in new memory where this evaluation was `Costly` or found too little.
    pub fn evaluate(&mut self, instance: &'a Doc) -> Result<Report, Fault>
        ensures ok { IfOk result
            (λ r. report_or_fault (linked_answer (evaluator_linked self.old) (value instance.now))
            ≡ Ok (is_valid r, report_text r)) }
        ensures err { IfErr result
            (λ f. f ≢ Fault.NoRoom
            → linked_answer (evaluator_linked self.old) (value instance.now)
            ≡ Err (fault_view f)) }
        ensures whole { (G : List Document) → HaveDistinctResources G
            → linked_documents (evaluator_linked self.old)
            ≡ reach G (linked_uri (evaluator_linked self.old))
            → Gives result
            (answer has_match G (linked_uri (evaluator_linked self.old)) (value instance.now)) }
        ensures same { evaluator_linked self.new ≡ evaluator_linked self.old }
    {
        self.return_to_root()?;
        let evaluation = &mut self.evaluation;
        let passed = evaluation.apply_root(self.schema, instance);
        let report = reported(evaluation.alloc, passed, &evaluation.log);
        evaluation.log.clear();
        self.is_at_root = passed.is_ok();
        report
    }

    // Begins anew where the last evaluation halted. The only error is want of memory.
    fn return_to_root(&mut self) -> Result<(), AllocError>
        ensures same { evaluator_linked self.new ≡ evaluator_linked self.old }
        ensures there { OnOk result (self.new.is_at_root ≡ true) }
    {
        if self.is_at_root {
            return Ok(());
        }
        self.begin_anew()
    }

    // Called apart: what it makes would stand in memory that each evaluation clears.
    #[inline(never)]
    fn begin_anew(&mut self) -> Result<(), AllocError>
        ensures same { evaluator_linked self.new ≡ evaluator_linked self.old }
        ensures there { OnOk result (self.new.is_at_root ≡ true) }
    {
        *self = Evaluator::at_root(self.evaluation.alloc, self.evaluation.linked)?;
        Ok(())
    }
}
