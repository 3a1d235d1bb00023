//! Parts of the instance that lie below all that is being applied.

ghost use Rattle.std.specs.Prelude.{◌≡◌, true, false};
ghost use Rattle.std.specs.List.{list_any};
ghost use Rattle.definitions.specs.Applied.{part_location};
ghost use Rattle.definitions.specs.Schemas.{Identity};
ghost use Rattle.applicators.specs.Plans.{part_view};
ghost use Rattle.evaluation_context.specs.Frames.{context_view, frame_standing};
ghost use Rattle.evaluation_context.specs.Runnings.{is_running_as};

use crate::context::Context;
use applicators::Part;

impl<'a> Context<'a> {
    /// Whether a part of the instance lies below the instance location: a member, or an element. Then no schema is being
    /// applied there yet, since those that are being applied are applied at the instance location or above it.
    pub fn is_above(&self, part: Part<'_>) -> bool
        ensures { (identity : Identity) → result ≡ true
            → list_any (is_running_as identity
            (part_location (frame_standing (context_view self.now)).instance_location
            (part_view part.entry)))
            (frame_standing (context_view self.now)).running
            ≡ false }
    {
        match part {
            Part::Member(_) => true,
            Part::Element(_) => true,
            Part::Whole => false,
            Part::NameOf(_) => false,
        }
    }
}
