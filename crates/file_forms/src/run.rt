//! A run over instances.

ghost use Rattle.std.specs.Prelude.{◌≡◌, ◌∷◌, [], Err, max};
ghost use Rattle.file_checks.specs.FileSources.{checker_linked};
ghost use Rattle.file_checks.specs.Tallies.{status_of};
ghost use Rattle.file_forms.specs.Accounts.{verdict_status};
ghost use Rattle.file_forms.specs.Judged.{ByLinked, IsAnswerOf};
ghost use Rattle.file_forms.specs.Printed.{PrintsRefusal};
ghost use Rattle.file_forms.specs.Refusals.{IsUnread};
ghost use Rattle.file_forms.specs.Stages.{GoesOver, stage_of};
ghost use Rattle.file_forms.specs.Subjects.{Are, instance_at, unread};
ghost use Rattle.file_forms.specs.Tellings.{IsToldOf, state_of};
ghost use Rattle.linker.specs.declared.linked.Linked.{Linked};

use crate::answering::{Printing, answer};
use crate::console::Console;
use crate::refusals::{no_room_text, refusal_text};
use crate::trouble::Trouble;
use file_checks::{Checker, Tally, Verdict};
use plain_reports::Instance;
use std::alloc::{AllocError, Global};

/// A run over instances: how each is told, and how many there were.
#[derive(Drop)]
pub(crate) struct Run {
    pub(crate) alloc: Global,
    pub(crate) printing: Printing,
    pub(crate) tally: Tally,
    pub(crate) total: Option<usize>,
}

impl Run {
    /// Before the first.
    pub(crate) fn new(alloc: Global, printing: Printing) -> Run
        ensures printing { result.printing ≡ printing }
        ensures status { status_of result.tally.invalid result.tally.refused ≡ 0 }
    {
        Run {
            alloc,
            printing,
            tally: Tally::new(),
            total: None,
        }
    }

    /// Checks the instance, and prints the answer or tells why there is none.
    pub(crate) fn check<C: Console>(
        &mut self,
        console: &mut C,
        checker: &mut Checker<'_>,
        instance: Instance<'_>,
    )
        ensures { GoesOver (Are (instance_at instance.entry.path.now instance.entry.line
            instance.entry.text.now ∷ []))
            (stage_of self.old (checker_linked checker.old) (C.printed console.old)
            (C.told console.old))
            (stage_of self.new (checker_linked checker.new) (C.printed console.new)
            (C.told console.new)) }
    {
        let answered = self.answer(checker, instance);
        self.tell(console, instance, &answered);
    }

    // What came of the instance, and what is printed of it.
    fn answer(
        &self,
        checker: &mut Checker<'_>,
        instance: Instance<'_>,
    ) -> Result<(Verdict, String), Trouble>
        ensures judged { ByLinked (checker_linked checker.old) self.now.printing (λ judge.
            IsAnswerOf judge instance.entry.path.now instance.entry.line instance.entry.text.now
            result) }
        ensures linked { checker_linked checker.new ≡ checker_linked checker.old }
    {
        match answer(self.alloc, self.printing, checker, instance) {
            Ok(answer) => Ok(answer),
            Err(fault) => Err(Trouble::refused(
                self.alloc,
                instance.path,
                instance.line,
                instance.text,
                fault,
            )),
        }
    }

    // Prints the answer, or tells the trouble.
    fn tell<C: Console>(
        &mut self,
        console: &mut C,
        instance: Instance<'_>,
        answered: &Result<(Verdict, String), Trouble>,
    )
        ensures told { IsToldOf self.old.printing.format instance.entry.path.now
            instance.entry.line answered.now
            (state_of (C.printed console.old) (C.told console.old) self.old.tally)
            (state_of (C.printed console.new) (C.told console.new) self.new.tally) }
        ensures printing { self.new.printing ≡ self.old.printing }
    {
        match answered {
            Ok((verdict, text)) => {
                console.print(text.as_str());
                self.count(*verdict);
            }
            Err(trouble) => self.refuse(console, instance.path, instance.line, trouble),
        }
        console.step(self.total);
    }

    // One more of this verdict.
    fn count(&mut self, verdict: Verdict)
        ensures status { status_of self.new.tally.invalid self.new.tally.refused
            ≡ max (status_of self.old.tally.invalid self.old.tally.refused)
            (verdict_status verdict) }
        ensures printing { self.new.printing ≡ self.old.printing }
    {
        self.tally.add(verdict);
    }

    // Tells the trouble with what has this path and line, prints it where the format has it, and counts it.
    fn refuse<C: Console>(
        &mut self,
        console: &mut C,
        path: &str,
        line: Option<usize>,
        trouble: &Trouble,
    )
        ensures told { IsToldOf self.old.printing.format path.now line (Err trouble.now)
            (state_of (C.printed console.old) (C.told console.old) self.old.tally)
            (state_of (C.printed console.new) (C.told console.new) self.new.tally) }
        ensures printing { self.new.printing ≡ self.old.printing }
    {
        console.tell(trouble);
        self.print_refusal(console, path, line, trouble);
        self.count(Verdict::Refused);
    }

    fn print_refusal<C: Console>(
        &self,
        console: &mut C,
        path: &str,
        line: Option<usize>,
        trouble: &Trouble,
    )
        ensures printed { PrintsRefusal self.now.printing.format path.now line trouble.now
            (C.printed console.old) (C.printed console.new) }
        ensures told { C.told console.new ≡ C.told console.old }
    {
        let format = self.printing.format;
        match refusal_text(self.alloc, format, path, line, trouble) {
            Ok(text) => console.print(text.as_str()),
            Err(_) => console.print(no_room_text(format)),
        }
    }

    /// Tells that the file or folder can't be read, and counts it.
    pub(crate) fn refuse_unread<C: Console>(
        &mut self,
        console: &mut C,
        path: &str,
        trouble: Trouble,
    )
        ensures { (linked : Linked) → IsUnread path.now trouble → GoesOver
            (Are (unread path.now ∷ []))
            (stage_of self.old linked (C.printed console.old) (C.told console.old))
            (stage_of self.new linked (C.printed console.new) (C.told console.new)) }
    {
        self.refuse(console, path, None, &trouble);
    }

    /// Tells how many there were, unless memory lacks.
    pub(crate) fn sum_up<C: Console>(&self, console: &mut C)
        ensures printed { C.printed console.new ≡ C.printed console.old }
        ensures told { C.told console.new ≡ C.told console.old }
    {
        if let Ok(line) = self.sum() {
            console.note(line.as_str());
        }
    }

    fn sum(&self) -> Result<String, AllocError> {
        let Tally {
            valid,
            invalid,
            refused,
        } = self.tally;
        format!(in self.alloc; "{valid} valid, {invalid} invalid, {refused} refused\n")
    }
}
