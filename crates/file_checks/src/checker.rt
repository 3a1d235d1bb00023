//! Instances, one text after the other, by one linked schema.

ghost use Rattle.std.specs.Prelude.{◌≡◌, List};
ghost use Rattle.definitions.specs.Reach.{reach};
ghost use Rattle.definitions.specs.Schemas.{Document};
ghost use Rattle.definition_laws.specs.Reaching.{HaveDistinctResources};
ghost use Rattle.linker.specs.LinkedDocuments.{linked_documents, linked_uri};
ghost use Rattle.file_checks.specs.FileJudgements.{Tells, judgement_over};

use evaluator::{EvaluationMemory, Report, evaluate_with};
use faults::Fault;
use json_doc::{Scratch, read_with};
use linker::Linked;
use std::alloc::Global;

/// Checks the texts of instances by the root of one linked resource, one after the other, in memory that stays.
///
/// Contracts see what was linked by `checker_linked`.
#[derive(Drop)]
pub struct Checker<'a> {
    alloc: Global,
    linked: &'a Linked,
    scratch: Scratch,
    memory: EvaluationMemory,
}

impl<'a> Checker<'a> {
    ghost use Rattle.file_checks.specs.FileSources.{checker_linked};

    /// By this linked resource.
    pub fn new(alloc: Global, linked: &'a Linked) -> Checker<'a>
        ensures { checker_linked result ≡ linked.now }
    {
        Checker {
            alloc,
            linked,
            scratch: Scratch::new(alloc),
            memory: EvaluationMemory::new(alloc),
        }
    }

    /// What was linked.
    pub fn linked(&self) -> &'a Linked
        ensures { result.now ≡ checker_linked self.now }
    {
        self.linked
    }

    /// What the resource's root says of the instance that the text spells: the evaluation over all documents that it was
    /// linked among, and none but these.
    ///
    /// The first of these faults is answered: `BadJson` and `BadNumber` of the text, and `Costly`, `Loop` and `Deep`. `NoRoom`
    /// may take the place of any answer. After any of them the next text is answered as before.
    pub fn check(&mut self, text: &[u8]) -> Result<Report, Fault>
        ensures told { (G : List Document) → HaveDistinctResources G
            → linked_documents (checker_linked self.old)
            ≡ reach G (linked_uri (checker_linked self.old))
            → Tells result (judgement_over G (linked_uri (checker_linked self.old)) text.now) }
        ensures same { checker_linked self.new ≡ checker_linked self.old }
    {
        let instance = read_with(self.alloc, &mut self.scratch, text)?;
        evaluate_with(self.alloc, self.linked, &instance, &mut self.memory)
    }
}
