//! Texts of which each line is an instance.

ghost use Rattle.std.specs.Prelude.{◌≡◌, IfErr, IfOk};
ghost use Rattle.std.specs.Io.BufRead.{strip_last};
ghost use Rattle.file_checks.specs.FileSources.{checker_linked};
ghost use Rattle.file_forms.specs.NextLines.{IsNext};
ghost use Rattle.file_forms.specs.Refusals.{IsUnread};
ghost use Rattle.file_forms.specs.Stages.{GoesOver, stage_of};
ghost use Rattle.file_forms.specs.Subjects.{Are, AreLines, AreLinesOf, of_line};

use crate::console::Console;
use crate::folders::Folders;
use crate::reading::unread;
use crate::run::Run;
use crate::trouble::Trouble;
use file_checks::{Checker, is_blank};
use plain_reports::Instance;
use std::alloc::Global;
use std::io::{BufRead, BufReader, Read};

// How many bytes of a file of lines are read at once.
const PIECE: usize = 65_536;

impl Run {
    /// Checks each line of the file, but for blank ones.
    pub(crate) fn check_lines_of<F: Folders, C: Console>(
        &mut self,
        files: &F,
        console: &mut C,
        checker: &mut Checker<'_>,
        path: &str,
    )
        ensures { GoesOver (AreLinesOf path.now (F.holds files.now path.now))
            (stage_of self.old (checker_linked checker.old) (C.printed console.old)
            (C.told console.old))
            (stage_of self.new (checker_linked checker.new) (C.printed console.new)
            (C.told console.new)) }
    {
        match files.open(self.alloc, path) {
            Ok(mut file) => self.check_lines(&mut file, console, checker, path),
            Err(trouble) => self.refuse_unread(console, path, trouble),
        }
    }

    /// Checks each line that the reader has left, but for blank ones. Where it can't be read any further, that is refused.
    pub(crate) fn check_lines<I: Read, C: Console>(
        &mut self,
        reader: &mut I,
        console: &mut C,
        checker: &mut Checker<'_>,
        path: &str,
    )
        ensures { GoesOver (AreLines path.now (I.remaining reader.old))
            (stage_of self.old (checker_linked checker.old) (C.printed console.old)
            (C.told console.old))
            (stage_of self.new (checker_linked checker.new) (C.printed console.new)
            (C.told console.new)) }
    {
        self.total = None;
        match BufReader::with_capacity(self.alloc, PIECE, reader) {
            Ok(mut reader) => self.check_each_line(&mut reader, console, checker, path),
            Err(error) => self.refuse_unread(console, path, unread(self.alloc, &error, path)),
        }
    }

    fn check_each_line<B: BufRead, C: Console>(
        &mut self,
        reader: &mut B,
        console: &mut C,
        checker: &mut Checker<'_>,
        path: &str,
    )
        ensures { GoesOver (AreLines path.now (B.remaining reader.old))
            (stage_of self.old (checker_linked checker.old) (C.printed console.old)
            (C.told console.old))
            (stage_of self.new (checker_linked checker.new) (C.printed console.new)
            (C.told console.new)) }
    {
        let mut line = Vec::new(self.alloc);
        for index in 0..usize::MAX {
            match next_line(self.alloc, reader, &mut line, path) {
                Ok(true) => self.check_line(console, checker, path, index + 1, line.as_slice()),
                Ok(false) => return,
                Err(trouble) => {
                    self.refuse_unread(console, path, trouble);
                    return;
                }
            }
        }
        self.refuse_unread(console, path, Trouble::cannot_read(self.alloc, path));
    }

    /// Checks the line, unless it is blank.
    fn check_line<C: Console>(
        &mut self,
        console: &mut C,
        checker: &mut Checker<'_>,
        path: &str,
        number: usize,
        line: &[u8],
    )
        ensures { GoesOver (Are (of_line path.now number line.now))
            (stage_of self.old (checker_linked checker.old) (C.printed console.old)
            (C.told console.old))
            (stage_of self.new (checker_linked checker.new) (C.printed console.new)
            (C.told console.new)) }
    {
        if is_blank(line) {
            return;
        }
        let instance = Instance {
            path,
            line: Some(number),
            text: line,
        };
        self.check(console, checker, instance);
    }
}

/// Reads the next line into `line`, in place of what it holds and without its line feed. Whether there was one.
fn next_line<B: BufRead>(
    alloc: Global,
    reader: &mut B,
    line: &mut Vec<u8>,
    name: &str,
) -> Result<bool, Trouble>
    ensures ok { IfOk result (λ is_there.
        IsNext (B.remaining reader.old) is_there line.new.items (B.remaining reader.new)) }
    ensures err { IfErr result (IsUnread name.now) }
{
    line.clear();
    match reader.read_until(b'\n', line) {
        Ok(count) => {
            drop_line_feed(line);
            Ok(count > 0)
        }
        Err(error) => Err(unread(alloc, &error, name)),
    }
}

// The line without a line feed at its end.
fn drop_line_feed(line: &mut Vec<u8>)
    ensures { line.new.items ≡ strip_last 10 line.old.items }
{
    if line.last() == Some(&b'\n') {
        line.pop();
    }
}
