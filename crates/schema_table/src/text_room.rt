//! Room for the texts that are kept of a document's schemas.

ghost use Rattle.std.specs.Prelude.{◌≡◌, ◌≤◌};

use locations::Step;
use std::alloc::AllocError;

/// How many bytes these texts may take together. Each resource's URI, each absolute reference and the way to each root and
/// each anchor is kept in full, so a document of 1 MB with one long `$id`, or one long name, could make them take as much
/// as 10 GB. Those of `$id`s that nest as deep as schemas may take 90 MB.
const MOST_TEXT: usize = 134_217_728;

/// What a step of a way takes beside its name.
const STEP: usize = 8;

/// Room for the texts of one document that may be longer than it: the URIs of its resources, its absolute references, and the
/// ways to roots and anchors.
#[derive(Debug, Drop)]
pub(crate) struct TextRoom {
    left: usize,
}

impl TextRoom {
    /// All of it.
    pub(crate) fn new() -> TextRoom
        ensures { result.left ≡ 134217728 }
    {
        TextRoom { left: MOST_TEXT }
    }

    /// Takes room for so many copies of a text of so many bytes. Where less is left, it fails as for want of memory.
    pub(crate) fn take(&mut self, copies: usize, bytes: usize) -> Result<(), AllocError>
        ensures { self.new.left ≤ self.old.left }
    {
        let wanted = copies.saturating_mul(bytes);
        self.left = self.left.checked_sub(wanted).ok_or(AllocError)?;
        Ok(())
    }

    /// Takes room for a way of these steps. Where less is left, it fails as for want of memory.
    pub(crate) fn take_way(&mut self, way: &[Step<'_>]) -> Result<(), AllocError>
        ensures { self.new.left ≤ self.old.left }
    {
        self.take(1, room_of(way))
    }
}

// What a way of these steps takes: the names, and eight bytes a step.
fn room_of(way: &[Step<'_>]) -> usize {
    let mut bytes = way.len().saturating_mul(STEP);
    for step in way {
        bytes = bytes.saturating_add(name_len(*step));
    }
    bytes
}

fn name_len(step: Step<'_>) -> usize {
    match step {
        Step::Name(name) => name.len(),
        Step::Keyword(keyword) => keyword.name().len(),
        Step::Index(_) => 0,
    }
}
