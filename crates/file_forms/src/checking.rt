//! Checks of several instances.

ghost use Rattle.file_forms.specs.Checks.{AreCheckedBy, EndsChecks, state_with};
ghost use Rattle.command_line.specs.Calls.{checks_view};

use crate::answering::Printing;
use crate::console::Console;
use crate::folders::Folders;
use crate::roots::{Given, linked_schema};
use crate::run::Run;
use command_line::Checks;
use file_checks::Checker;
use linker::Linked;
use std::alloc::Global;
use std::io::Read;

/// Checks instances, and gives the status: 0 where all are valid, 1 where one isn't, and 2 where there is no answer for one.
///
/// Where the schema or a document that was given is refused, that is told, and nothing is checked. Else each instance that the
/// arguments name is accounted for, in order: standard output gets what is printed of its answer, which is that of the
/// evaluation over the documents that were given, and standard error why there is none. `colours` says whether a terminal's
/// colours are used.
pub fn check_many<F: Folders, I: Read, C: Console>(
    alloc: Global,
    files: &F,
    input: &mut I,
    console: &mut C,
    checks: &Checks<'_>,
    colours: bool,
) -> u8
    ensures { EndsChecks (F.holds files.now) (F.lists files.now) (F.runs_in files.now)
        (checks_view checks.now) (I.remaining input.old) (I.remaining input.new)
        (state_with (C.printed console.old) (C.told console.old) 0)
        (state_with (C.printed console.new) (C.told console.new) result) }
{
    let given = Given {
        documents: &checks.documents,
        schema: checks.schema,
        uri: checks.uri,
    };
    match linked_schema(alloc, files, console, &given) {
        Ok(Some(linked)) => { check_linked(alloc, files, input, console, checks, colours, &linked) }
        Ok(None) => 2,
        Err(trouble) => {
            console.tell(&trouble);
            2
        }
    }
}

// Checks the instances by the linked schema, and gives the status.
fn check_linked<F: Folders, I: Read, C: Console>(
    alloc: Global,
    files: &F,
    input: &mut I,
    console: &mut C,
    checks: &Checks<'_>,
    colours: bool,
    linked: &Linked,
) -> u8
    ensures { AreCheckedBy (F.holds files.now) (F.lists files.now) (checks_view checks.now)
        linked.now (I.remaining input.old) (I.remaining input.new)
        (state_with (C.printed console.old) (C.told console.old) 0)
        (state_with (C.printed console.new) (C.told console.new) result) }
{
    let printing = Printing {
        format: checks.format,
        colours,
        quiet: checks.quiet,
    };
    let mut run = Run::new(alloc, printing);
    let mut checker = Checker::new(alloc, linked);
    run.check_all(files, input, console, &mut checker, checks);
    run.sum_up(console);
    run.tally.status()
}
