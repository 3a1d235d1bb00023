//! Applications that a keyword plans.

ghost use Rattle.std.specs.Prelude.{◌≡◌};
ghost use Rattle.applicators.specs.Plans.{step_view, way_view};

use crate::subject::Subject;
use basic_output::Origin;
use json_doc::{Doc, Name};
use locations::Step;
use std::rc::Rc;

/// The part of the instance that a schema is applied to.
#[derive(Clone, Copy, Debug)]
pub enum Part<'a> {
    /// The instance itself.
    Whole,
    /// The member of this name.
    Member(Name<'a>),
    /// The element of this index.
    Element(usize),
    /// This name of the instance.
    NameOf(Name<'a>),
}

/// The way from a keyword to a schema that it applies.
#[derive(Debug, Drop)]
pub enum Way<'a> {
    /// The schema is the keyword's value.
    Own,
    /// It is the member of this name of that value.
    Member(Name<'a>),
    /// It is the element of this index of that value.
    Element(usize),
    /// A reference names it: its resource, and the steps from that resource's root.
    Target(Rc<Origin<'a>>),
}

impl<'a> Way<'a> {
    /// The step below the keyword's value, where there is one.
    #[inline(always)]
    pub fn step(&self) -> Option<Step<'a>>
        ensures { step_view result ≡ way_view self.now }
    {
        match self {
            Way::Member(name) => Some(Step::Name(name.as_str())),
            Way::Element(index) => Some(Step::Index(*index)),
            _ => None,
        }
    }
}

/// A schema that is to be applied to a part of the instance.
///
/// Contracts see the application that it stands for, by `planned_view`.
#[derive(Debug, Drop)]
pub struct Planned<'a> {
    /// The way to the schema.
    pub way: Way<'a>,
    /// The schema.
    pub schema: &'a Doc,
    /// The part of the instance.
    pub part: Part<'a>,
    /// What stands there.
    pub subject: Subject<'a>,
}

// What a keyword's plan takes for each application.
const _: () = prove!(size_of::<Planned<'static>>() == 56);
