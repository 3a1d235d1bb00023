//! The forms that judge files and folders.
ghost use Rattle.std.specs.Prelude.{[], None};
ghost use Rattle.command_line.specs.Calls.{bundling_view, checks_view};
ghost use Rattle.file_forms.specs.Bundles.{EndsBundle};
ghost use Rattle.file_forms.specs.Checks.{EndsChecks};
ghost use Rattle.service_forms.specs.Endings.{EndsReading};
ghost use Rattle.schemareg.specs.Forms.{Disk, EndsForm, EndsScan, unknown_disk};

use crate::file_system::{FileSystem, Terminals};
use crate::terminal::Terminal;
use command_line::{Bundling, Checks, Scanning};
use file_forms::{SystemFolders, wants_colours};
use service_forms::Stop;
use serving::ByteWriter;
use std::alloc::Global;
use std::io::{Read, Write};
use std::rt::{Env, Files};
use std::time::Clock;

/// What carries out the forms that judge files and folders. Each tells what goes wrong itself, and then stops.
///
/// Contracts see the files and folders by `disk`.
pub trait Forms {
    ghost disk: { Self → Disk } = { λ _. unknown_disk };

    /// Whether standard error is a terminal.
    fn is_terminal(&self) -> bool;

    /// Checks several instances.
    fn check_many<'a, C: Clock, I: Read, O: ByteWriter, E: Write>(
        &self,
        checks: &Checks<'_>,
        input: &mut I,
        console: &mut Terminal<'_, C, O, E>,
    ) -> Result<u8, Stop<'a>>
        ensures reading { EndsReading [] None result }
        ensures ends { EndsForm (EndsChecks (disk self.now).holds (disk self.now).lists
            (disk self.now).runs_in (checks_view checks.now)
            (I.remaining input.old) (I.remaining input.new))
            (O.writes console.old.output.stream) result (O.writes console.new.output.stream) };

    /// Writes a bundle.
    fn bundle<'a, C: Clock, O: ByteWriter, E: Write>(
        &self,
        bundling: &Bundling<'_>,
        console: &mut Terminal<'_, C, O, E>,
    ) -> Result<u8, Stop<'a>>
        ensures reading { EndsReading [] None result }
        ensures ends { EndsForm (EndsBundle (disk self.now).holds (disk self.now).lists
            (disk self.now).runs_in (disk self.now).has_written (bundling_view bundling.now))
            (O.writes console.old.output.stream) result (O.writes console.new.output.stream) };

    /// Scans schemas.
    fn scan<'a, C: Clock, O: ByteWriter, E: Write>(
        &self,
        scanning: &Scanning<'_>,
        console: &mut Terminal<'_, C, O, E>,
    ) -> Result<u8, Stop<'a>>
        ensures reading { EndsReading [] None result }
        ensures ends { EndsForm EndsScan
            (O.writes console.old.output.stream) result (O.writes console.new.output.stream) };
}

impl<R: Files + Env + AllocGlobal + Clock + Clone + Drop> Forms for FileSystem<'_, R> {
    fn is_terminal(&self) -> bool {
        self.terminals.errors
    }

    fn check_many<'a, C: Clock, I: Read, O: ByteWriter, E: Write>(
        &self,
        checks: &Checks<'_>,
        input: &mut I,
        console: &mut Terminal<'_, C, O, E>,
    ) -> Result<u8, Stop<'a>> {
        let alloc = self.rt.alloc();
        let files = SystemFolders::new(self.rt);
        let Terminals { output, errors } = self.terminals;
        let colours = output && errors && wants_colours(self.rt);
        console.begin(checks.quiet);
        let status = file_forms::check_many(alloc, &files, input, console, checks, colours);
        console.end(status)
    }

    fn bundle<'a, C: Clock, O: ByteWriter, E: Write>(
        &self,
        bundling: &Bundling<'_>,
        console: &mut Terminal<'_, C, O, E>,
    ) -> Result<u8, Stop<'a>> {
        let alloc = self.rt.alloc();
        let files = SystemFolders::new(self.rt);
        console.begin(true);
        let status = file_forms::bundle(alloc, &files, console, bundling);
        console.end(status)
    }

    fn scan<'a, C: Clock, O: ByteWriter, E: Write>(
        &self,
        scanning: &Scanning<'_>,
        console: &mut Terminal<'_, C, O, E>,
    ) -> Result<u8, Stop<'a>> {
        let alloc = self.rt.alloc();
        let files = SystemFolders::new(self.rt);
        console.begin(scanning.quiet);
        let status = file_forms::scan(alloc, &files, console, scanning);
        console.end(status)
    }
}
