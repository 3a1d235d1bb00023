//! Standard output and standard error of the program.
ghost use Rattle.std.specs.Prelude.{◌≡◌, ◌++◌, [], List, None, string_bytes};
ghost use Rattle.definitions.specs.Values.{Text};
ghost use Rattle.serving.specs.Transfers.{Transfer, transferred_bytes};
ghost use Rattle.service_forms.specs.Endings.{EndsReading};
ghost use Rattle.schemareg.specs.Forms.{IsShown};
ghost use Rattle.schemareg.specs.Outputs.{IsWritten, bytes_in, given_text};

use crate::output::Output;
use crate::progress::Progress;
use file_forms::{Console, Trouble};
use network::Transcript;
use service_forms::Stop;
use serving::ByteWriter;
use std::alloc::Global;
use std::io::Write;
use std::time::Clock;

// What is told where memory lacks for the lines of a trouble.
const NO_ROOM: &str = "refused: 30 NoRoom\n";

/// Standard output and standard error, with what is to be written.
#[derive(Drop)]
pub struct Terminal<'a, C: Clock, O, E> {
    alloc: Global,
    pub output: Output<O>,
    pub errors: E,
    progress: Progress<'a, C>,
    // Whether standard error is a terminal.
    terminal: bool,
    quiet: bool,
    // What was told.
    told: Transcript,
}

impl<'a, C: Clock, O: ByteWriter, E: Write> Terminal<'a, C, O, E> {
    /// On these streams. `terminal` says whether standard error is a terminal, which is told how the work goes on.
    pub fn new(
        alloc: Global,
        clock: &'a C,
        out: O,
        errors: E,
        terminal: bool,
    ) -> Terminal<'a, C, O, E> {
        Terminal {
            alloc,
            output: Output::new(alloc, out),
            errors,
            progress: Progress::new(clock),
            terminal,
            quiet: true,
            told: Transcript::new(),
        }
    }

    /// Begins a form. Where `quiet`, nothing is told but troubles.
    pub fn begin(&mut self, quiet: bool)
        ensures stream { self.new.output.stream ≡ self.old.output.stream }
        ensures printed { given_text (O.writes self.new.output.stream) self.new.output.lost
            (string_bytes self.new.output.pending)
            ≡ transferred_bytes (O.writes self.old.output.stream) }
        ensures told { bytes_in self.new.told ≡ [] }
    {
        self.output.begin();
        self.told = Transcript::new();
        self.quiet = quiet;
        self.progress.begin(self.terminal && !quiet);
    }

    // Writes what is to be written to standard output.
    fn flush(&mut self)
        ensures printed { given_text (O.writes self.new.output.stream) self.new.output.lost
            (string_bytes self.new.output.pending)
            ≡ given_text (O.writes self.old.output.stream) self.old.output.lost
            (string_bytes self.old.output.pending) }
        ensures told { self.new.told ≡ self.old.told }
    {
        self.progress.clear(&mut self.errors);
        self.output.flush();
    }

    // Writes lines to standard error, behind all that was printed before.
    fn write_errors(&mut self, lines: &str)
        ensures printed { given_text (O.writes self.new.output.stream) self.new.output.lost
            (string_bytes self.new.output.pending)
            ≡ given_text (O.writes self.old.output.stream) self.old.output.lost
            (string_bytes self.old.output.pending) }
        ensures told { self.new.told ≡ self.old.told }
    {
        self.flush();
        let _ = self.errors.write_all(lines.as_bytes());
    }

    // Tells lines of a trouble.
    fn tell_lines(&mut self, lines: &str)
        ensures printed { given_text (O.writes self.new.output.stream) self.new.output.lost
            (string_bytes self.new.output.pending)
            ≡ given_text (O.writes self.old.output.stream) self.old.output.lost
            (string_bytes self.old.output.pending) }
        ensures told { bytes_in self.new.told ≡ bytes_in self.old.told ++ lines.now }
    {
        self.told = self.told.moved(0, lines.as_bytes());
        self.write_errors(lines);
    }

    /// Ends a form that has this status: writes what is left. Where standard output can't be written, there is none.
    pub fn end<'s>(&mut self, status: u8) -> Result<u8, Stop<'s>>
        ensures shown { IsShown (given_text (O.writes self.old.output.stream) self.old.output.lost
            (string_bytes self.old.output.pending)) status result
            (O.writes self.new.output.stream) }
        ensures reading { EndsReading [] None result }
    {
        self.progress.clear(&mut self.errors);
        let is_written = self.output.finish();
        ended(is_written, status)
    }
}

impl<C: Clock, O: ByteWriter, E: Write> Console for Terminal<'_, C, O, E> {
    ghost printed = { λ s. given_text (O.writes s.output.stream) s.output.lost
        (string_bytes s.output.pending) };

    ghost told = { λ s. bytes_in s.told };

    fn print(&mut self, text: &str) {
        if !self.output.keep(text) {
            self.progress.clear(&mut self.errors);
            self.output.write(text);
        } else if self.output.is_full() {
            self.flush();
        }
    }

    fn tell(&mut self, trouble: &Trouble) {
        match trouble.lines(self.alloc) {
            Ok(lines) => self.tell_lines(lines.as_str()),
            Err(_) => self.tell_lines(NO_ROOM),
        }
    }

    fn note(&mut self, line: &str) {
        if !self.quiet {
            self.write_errors(line);
        }
    }

    fn step(&mut self, total: Option<usize>) {
        self.progress.step(self.alloc, total, &mut self.errors);
    }
}

// How a form ends that has this status, where all that it printed is written or not.
fn ended<'s>(is_written: bool, status: u8) -> Result<u8, Stop<'s>>
    ensures shown { (printed : Text) → (writes : List Transfer)
        → IsWritten printed is_written writes → IsShown printed status result writes }
    ensures reading { EndsReading [] None result }
{
    if !is_written {
        return Err(Stop::CannotWrite);
    }
    if status <= 1 {
        Ok(status)
    } else {
        Err(Stop::Told)
    }
}
