//! The instances that paths name.

ghost use Rattle.std.specs.Prelude.{◌≡◌, map, string_bytes};
ghost use Rattle.file_checks.specs.FileSources.{checker_linked};
ghost use Rattle.file_forms.specs.Stages.{GoesOver, stage_of};
ghost use Rattle.file_forms.specs.Subjects.{Are, OfArgument, OfArguments, OfEach, OfFile, OfFound, OfInput, OfPath, endings_of, unread};
ghost use Rattle.linker.specs.declared.linked.Linked.{Linked};

use crate::console::Console;
use crate::folders::{Folders, Found};
use crate::run::Run;
use crate::trouble::Trouble;
use crate::walking::{JSON, LINES};
use command_line::Checks;
use file_checks::Checker;
use std::io::Read;

impl Run {
    /// Checks the instances of all paths, in order.
    pub(crate) fn check_all<F: Folders, I: Read, C: Console>(
        &mut self,
        files: &F,
        input: &mut I,
        console: &mut C,
        checker: &mut Checker<'_>,
        checks: &Checks<'_>,
    )
        ensures { GoesOver (OfArguments (F.holds files.now) (F.lists files.now) checks.now.lines
            (map (λ p. p.now) checks.now.instances.items)
            (I.remaining input.old) (I.remaining input.new))
            (stage_of self.old (checker_linked checker.old) (C.printed console.old)
            (C.told console.old))
            (stage_of self.new (checker_linked checker.new) (C.printed console.new)
            (C.told console.new)) }
    {
        for path in &checks.instances {
            self.check_argument(files, input, console, checker, path, checks.lines);
        }
    }

    /// Checks the file, the files of the folder, or standard input.
    fn check_argument<F: Folders, I: Read, C: Console>(
        &mut self,
        files: &F,
        input: &mut I,
        console: &mut C,
        checker: &mut Checker<'_>,
        path: &str,
        lines: bool,
    )
        ensures { GoesOver (OfArgument (F.holds files.now) (F.lists files.now) lines path.now
            (I.remaining input.old) (I.remaining input.new))
            (stage_of self.old (checker_linked checker.old) (C.printed console.old)
            (C.told console.old))
            (stage_of self.new (checker_linked checker.new) (C.printed console.new)
            (C.told console.new)) }
    {
        if path == "-" {
            self.check_input(input, console, checker, lines);
        } else {
            self.check_path(files, console, checker, path, lines);
        }
    }

    /// Checks standard input, as one instance or line by line.
    fn check_input<I: Read, C: Console>(
        &mut self,
        input: &mut I,
        console: &mut C,
        checker: &mut Checker<'_>,
        lines: bool,
    )
        ensures { GoesOver (OfInput lines (I.remaining input.old))
            (stage_of self.old (checker_linked checker.old) (C.printed console.old)
            (C.told console.old))
            (stage_of self.new (checker_linked checker.new) (C.printed console.new)
            (C.told console.new)) }
    {
        if lines {
            self.check_lines(input, console, checker, "-");
        } else {
            self.check_whole_input(input, console, checker);
        }
    }

    /// Checks the file, or the files of the folder.
    fn check_path<F: Folders, C: Console>(
        &mut self,
        files: &F,
        console: &mut C,
        checker: &mut Checker<'_>,
        path: &str,
        lines: bool,
    )
        ensures { GoesOver (OfPath (F.holds files.now) (F.lists files.now) lines path.now)
            (stage_of self.old (checker_linked checker.old) (C.printed console.old)
            (C.told console.old))
            (stage_of self.new (checker_linked checker.new) (C.printed console.new)
            (C.told console.new)) }
    {
        match files.files_of(self.alloc, path, endings(lines)) {
            Ok(found) => self.check_found(files, console, checker, &found, lines),
            Err(trouble) => self.refuse_unread(console, path, trouble),
        }
    }

    /// Checks the files that were found, behind a refusal of each folder that can't be read.
    fn check_found<F: Folders, C: Console>(
        &mut self,
        files: &F,
        console: &mut C,
        checker: &mut Checker<'_>,
        found: &Found,
        lines: bool,
    )
        ensures { GoesOver (OfFound (F.holds files.now) lines
            (map (λ f. string_bytes f) found.now.unread.items)
            (map (λ f. string_bytes f) found.now.files.items))
            (stage_of self.old (checker_linked checker.old) (C.printed console.old)
            (C.told console.old))
            (stage_of self.new (checker_linked checker.new) (C.printed console.new)
            (C.told console.new)) }
    {
        self.refuse_each(console, found.unread.as_slice());
        self.total = Some(self.total.unwrap_or(0).saturating_add(found.files.len()));
        self.check_files(files, console, checker, found.files.as_slice(), lines);
    }

    /// Tells of each folder that it can't be read.
    fn refuse_each<C: Console>(&mut self, console: &mut C, folders: &[String])
        ensures { (linked : Linked) → GoesOver
            (Are (map unread (map (λ f. string_bytes f) folders.now)))
            (stage_of self.old linked (C.printed console.old) (C.told console.old))
            (stage_of self.new linked (C.printed console.new) (C.told console.new)) }
    {
        for folder in folders {
            let path = folder.as_str();
            self.refuse_unread(console, path, Trouble::cannot_read(self.alloc, path));
        }
    }

    /// Checks the files, one after the other.
    fn check_files<F: Folders, C: Console>(
        &mut self,
        files: &F,
        console: &mut C,
        checker: &mut Checker<'_>,
        paths: &[String],
        lines: bool,
    )
        ensures { GoesOver (OfEach (OfFile (F.holds files.now) lines)
            (map (λ p. string_bytes p) paths.now))
            (stage_of self.old (checker_linked checker.old) (C.printed console.old)
            (C.told console.old))
            (stage_of self.new (checker_linked checker.new) (C.printed console.new)
            (C.told console.new)) }
    {
        for path in paths {
            self.check_file(files, console, checker, path.as_str(), lines);
        }
    }

    /// Checks a file, as one instance or line by line.
    fn check_file<F: Folders, C: Console>(
        &mut self,
        files: &F,
        console: &mut C,
        checker: &mut Checker<'_>,
        path: &str,
        lines: bool,
    )
        ensures { GoesOver (OfFile (F.holds files.now) lines path.now)
            (stage_of self.old (checker_linked checker.old) (C.printed console.old)
            (C.told console.old))
            (stage_of self.new (checker_linked checker.new) (C.printed console.new)
            (C.told console.new)) }
    {
        if lines {
            self.check_lines_of(files, console, checker, path);
        } else {
            self.check_whole(files, console, checker, path);
        }
    }
}

// The endings of the names of files that are instances, or whose lines are.
fn endings(lines: bool) -> &'static [&'static str]
    ensures { map (λ e. e.now) result.now ≡ endings_of lines }
{
    if lines { LINES } else { JSON }
}
