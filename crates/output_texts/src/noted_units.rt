//! The units that are noted of an instance.

ghost use Rattle.std.specs.Prelude.{◌≡◌};
ghost use Rattle.output_texts.specs.NoUnits.{HasNoUnits};
ghost use Rattle.output_texts.specs.Outputs.{counted_units};

use basic_output::Units;
use std::alloc::Global;

/// The errors, should the instance fail, and the annotations, should it pass.
#[derive(Drop)]
pub struct NotedUnits {
    pub errors: Units,
    pub annotations: Units,
}

impl NotedUnits {
    /// None yet. This takes no memory.
    pub fn new(alloc: Global) -> NotedUnits
        ensures { HasNoUnits result }
    {
        NotedUnits {
            errors: Units::new(alloc),
            annotations: Units::new(alloc),
        }
    }

    /// None any more. Their memory is kept as [`Units::clear`] keeps it.
    pub fn clear(&mut self)
        ensures { HasNoUnits self.new }
    {
        self.errors.clear();
        self.annotations.clear();
    }

    /// Those that are the output's, where the instance is valid or where it isn't.
    pub fn counted(&self, valid: bool) -> &Units
        ensures { result.now ≡ counted_units valid self.now }
    {
        if valid {
            &self.annotations
        } else {
            &self.errors
        }
    }
}
