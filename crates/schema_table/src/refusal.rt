//! Why a walk over the schemas of a document stops.

ghost use Rattle.std.specs.Prelude.{◌≡◌, ◌≢◌, [], ◌∷◌, List, Some, IfOk, map, decimal, string_bytes};
ghost use Rattle.definitions.specs.Pointers.{pointer_text};
ghost use Rattle.definitions.specs.Lists.{first};
ghost use Rattle.faults.specs.View.{fault_view};
ghost use Rattle.schema_table.specs.Missteps.{Misstep, wrong_shape, below_name, misstep_fault};
ghost use Rattle.schema_table.specs.Refusals.{Refuses, way_up};

use faults::Fault;
use json_pointer::Pointer;
use locations::Step;
use std::alloc::{AllocError, Global};

/// Why a walk stops before its end.
#[derive(Drop)]
pub(crate) enum Refusal<'a> {
    /// Memory ran out.
    NoRoom,
    /// A keyword's value has a wrong shape: the steps that lead to the keyword, the last one first.
    Shape(Vec<Step<'a>>),
    /// An `$id` makes no identifier.
    Id,
    /// An anchor's name is none.
    Anchor,
    /// A `$schema` names another dialect.
    Dialect,
}

impl<'a> From<AllocError> for Refusal<'a> {
    ghost use Rattle.schema_table.specs.declared.refusal.Refusal.TheVariants.{NoRoom};

    ghost from_gives = { λ _ r. r ≡ NoRoom };

    fn from(_refused: AllocError) -> Refusal<'a> {
        Refusal::NoRoom
    }
}

impl<'a> Refusal<'a> {
    /// At the keyword of this name.
    pub(crate) fn at(alloc: Global, name: &'a str) -> Refusal<'a>
        ensures { Refuses result (wrong_shape (name.now ∷ []) ∷ []) }
    {
        let mut steps = Vec::new(alloc);
        match steps.push(Step::Name(name)) {
            Ok(()) => Refusal::Shape(steps),
            Err(_) => Refusal::NoRoom,
        }
    }

    /// This refusal as seen from the object around, whose member of this name the walk was in: the steps to a keyword
    /// now begin with that name.
    pub(crate) fn under_name(self, name: &'a str) -> Refusal<'a>
        ensures { (ms : List Misstep) → Refuses self.entry ms
            → Refuses result (below_name name.now ms) }
    {
        match self {
            Refusal::Shape(mut steps) => match steps.push(Step::Name(name)) {
                Ok(()) => Refusal::Shape(steps),
                Err(_) => Refusal::NoRoom,
            },
            other => other,
        }
    }

    /// This refusal as seen from the list around, whose element of this index the walk was in: the steps to a keyword
    /// now begin with that index.
    pub(crate) fn under_index(self, index: usize) -> Refusal<'a>
        ensures { (ms : List Misstep) → Refuses self.entry ms
            → Refuses result (below_name (decimal index) ms) }
    {
        match self {
            Refusal::Shape(mut steps) => match steps.push(Step::Index(index)) {
                Ok(()) => Refusal::Shape(steps),
                Err(_) => Refusal::NoRoom,
            },
            other => other,
        }
    }

    /// The fault, if the walk began at the document's root.
    pub(crate) fn fault(self, alloc: Global) -> Fault
        ensures { (ms : List Misstep) → Refuses self.entry ms → result ≢ Fault.NoRoom
            → first (map (misstep_fault []) ms) ≡ Some (fault_view result) }
    {
        match self {
            Refusal::NoRoom => Fault::NoRoom,
            Refusal::Shape(steps) => match text_up(alloc, steps) {
                Ok(text) => Fault::BadKeyword(text),
                Err(_) => Fault::NoRoom,
            },
            Refusal::Id => Fault::BadId,
            Refusal::Anchor => Fault::BadAnchor,
            Refusal::Dialect => Fault::Dialect,
        }
    }
}

// The text of the pointer that takes these steps, the last one first.
fn text_up(alloc: Global, mut steps: Vec<Step<'_>>) -> Result<String, AllocError>
    ensures { IfOk result (λ s. string_bytes s ≡ pointer_text (way_up steps.entry.items)) }
{
    let mut pointer = Pointer::new(alloc);
    while let Some(step) = steps.pop() {
        match step {
            Step::Name(name) => pointer.push(name)?,
            Step::Index(index) => pointer.push(format!(in alloc; "{index}")?.as_str())?,
            Step::Keyword(keyword) => pointer.push(keyword.name())?,
        }
    }
    pointer.text(alloc)
}
