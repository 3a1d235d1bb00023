//! What goes wrong with a file.

use crate::position::position_of;
use crate::trouble_lines::{fault_text, path_line, refused_line};
use fault_sentences::sentence_of;
use file_checks::Fault;
use plain_reports::shown_text;
use std::alloc::{AllocError, AllocFailed, Global};
use text_places::Position;

/// What goes wrong with a file, or with the whole.
#[derive(Debug, Drop)]
pub enum Trouble {
    /// The file or folder, or standard input under the name `-`, cannot be read.
    CannotRead(String),
    /// What the file holds is refused.
    Refused(Refusal),
    /// The file cannot be written.
    CannotWrite(String),
}

/// A refusal.
#[derive(Debug, Drop)]
pub struct Refusal {
    /// The file; none where it isn't for one.
    pub path: Option<String>,
    /// The line, of a file of which each line is an instance.
    pub line: Option<usize>,
    pub fault: Fault,
    /// Where in the file, where that is known.
    pub position: Option<Position>,
    /// The file that has what is refused, where that is known and may be another.
    pub origin: Option<String>,
}

impl From<Fault> for Trouble {
    fn from(fault: Fault) -> Self {
        Trouble::Refused(Refusal {
            path: None,
            line: None,
            fault,
            position: None,
            origin: None,
        })
    }
}

impl From<AllocError> for Trouble {
    fn from(_error: AllocError) -> Self {
        Trouble::no_room()
    }
}

impl<T: Drop> From<AllocFailed<T>> for Trouble {
    fn from(_error: AllocFailed<T>) -> Self {
        Trouble::no_room()
    }
}

impl Trouble {
    ghost use Rattle.std.specs.Prelude.{◌≡◌, ℕ, IfOk, Option, string_bytes};
    ghost use Rattle.definitions.specs.Values.{Text};
    ghost use Rattle.faults.specs.declared.Fault.{Fault};
    ghost use Rattle.file_forms.specs.Refusals.{IsLineOf, IsRefusal, IsUnread, IsUnwritten, MeansNoRoom, reason_text};

    /// That memory ran out.
    pub(crate) fn no_room() -> Trouble
        ensures { MeansNoRoom result }
    {
        Trouble::Refused(Refusal {
            path: None,
            line: None,
            fault: Fault::NoRoom,
            position: None,
            origin: None,
        })
    }

    /// That the file at this path is refused. `text` is what it holds, and tells where.
    pub(crate) fn refused(
        alloc: Global,
        path: &str,
        line: Option<usize>,
        text: &[u8],
        fault: Fault,
    ) -> Trouble
        ensures { IsRefusal path.now line fault result }
    {
        let position = position_of(alloc, text, &fault);
        match String::from_str(alloc, path) {
            Ok(path) => Trouble::Refused(Refusal {
                path: Some(path),
                line,
                fault,
                position,
                origin: None,
            }),
            Err(_) => Trouble::no_room(),
        }
    }

    /// This refusal, with `origin` as the file that has what is refused, where that is known. Other trouble stays as it is.
    pub(crate) fn with_origin(self, origin: Option<String>) -> Trouble
        ensures { (path : Text) (line : Option ℕ) (fault : Fault) → IsRefusal path line fault self
            → IsRefusal path line fault result }
    {
        match self {
            Trouble::Refused(mut refusal) => {
                refusal.origin = origin;
                Trouble::Refused(refusal)
            }
            other => other,
        }
    }

    /// That what has this name cannot be read.
    pub(crate) fn cannot_read(alloc: Global, name: &str) -> Trouble
        ensures { IsUnread name.now result }
    {
        match String::from_str(alloc, name) {
            Ok(name) => Trouble::CannotRead(name),
            Err(_) => Trouble::no_room(),
        }
    }

    /// That the file at this path cannot be written.
    pub(crate) fn cannot_write(alloc: Global, path: &str) -> Trouble
        ensures { IsUnwritten path.now result }
    {
        match String::from_str(alloc, path) {
            Ok(path) => Trouble::CannotWrite(path),
            Err(_) => Trouble::no_room(),
        }
    }

    /// Its lines, as a terminal shows them: what went wrong, and below a refusal a sentence of what would mend it. The only
    /// error is want of memory.
    pub fn lines(&self, alloc: Global) -> Result<String, AllocError>
        ensures { IfOk result (λ s. IsLineOf self.now (string_bytes s)) }
    {
        match self {
            Trouble::CannotRead(path) => path_line(alloc, "cannot read ", path.as_str()),
            Trouble::CannotWrite(path) => path_line(alloc, "cannot write ", path.as_str()),
            Trouble::Refused(refusal) => refusal.lines(alloc),
        }
    }

    /// Why, in a few words: `1 BadJson`. The only error is want of memory.
    pub(crate) fn reason(&self, alloc: Global) -> Result<String, AllocError>
        ensures { IfOk result (λ s. string_bytes s ≡ reason_text self.now) }
    {
        match self {
            Trouble::CannotRead(_) => String::from_str(alloc, "cannot read"),
            Trouble::CannotWrite(_) => String::from_str(alloc, "cannot write"),
            Trouble::Refused(refusal) => fault_text(alloc, &refusal.fault),
        }
    }

    /// The line and the column in the file, as far as they are known.
    pub(crate) fn place(&self) -> Option<(usize, usize)> {
        match self {
            Trouble::Refused(refusal) => refusal.place(),
            _ => None,
        }
    }
}

impl Refusal {
    ghost use Rattle.std.specs.Prelude.{◌≡◌, IfOk, option_map, string_bytes};
    ghost use Rattle.faults.specs.View.{fault_view};
    ghost use Rattle.file_forms.specs.Refusals.{IsRefusalText};
    ghost use Rattle.file_forms.specs.RefusalLines.{refusal_line};
    ghost use Rattle.plain_reports.specs.Shown.{shown_text};

    /// `refused: PATH:LINE: 3 BadJson`, and below it `  PATH:LINE:COLUMN: ` and a sentence.
    fn lines(&self, alloc: Global) -> Result<String, AllocError>
        ensures { IfOk result (λ s. IsRefusalText
            (option_map (λ p. string_bytes p) self.now.path)
            self.now.line (fault_view self.now.fault) (string_bytes s)) }
    {
        let first = self.first_line(alloc)?;
        let second = self.second_line(alloc)?;
        let mut lines = shown_text(alloc, first.as_str())?;
        lines.push_str("\n  ")?;
        lines.push_str(shown_text(alloc, second.as_str())?.as_str())?;
        lines.push_str("\n")?;
        Ok(lines)
    }

    fn first_line(&self, alloc: Global) -> Result<String, AllocError>
        ensures { IfOk result (λ s. string_bytes s
            ≡ refusal_line (option_map (λ p. string_bytes p) self.now.path)
            self.now.line (fault_view self.now.fault)) }
    {
        let fault = &self.fault;
        match &self.path {
            None => format!(in alloc; "refused: {fault}"),
            Some(path) => refused_line(alloc, path.as_str(), self.line, fault),
        }
    }

    fn second_line(&self, alloc: Global) -> Result<String, AllocError> {
        let sentence = sentence_of(&self.fault);
        match (&self.path, self.place(), &self.origin) {
            (Some(path), Some((line, column)), _) => {
                format!(in alloc; "{path}:{line}:{column}: {sentence}")
            }
            (_, _, Some(origin)) => format!(in alloc; "{origin}: {sentence}"),
            _ => String::from_str(alloc, sentence),
        }
    }

    /// The line and the column in the file.
    fn place(&self) -> Option<(usize, usize)> {
        let position = self.position?;
        let line = match self.line {
            Some(first) => first.saturating_add(position.line.saturating_sub(1)),
            None => position.line,
        };
        Some((line, position.column))
    }
}
