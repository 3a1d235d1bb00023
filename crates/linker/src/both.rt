//! Two sources as one.

ghost use Rattle.std.specs.Prelude.{◌≡◌, false};
ghost use Rattle.std.specs.List.{list_any};
ghost use Rattle.definitions.specs.Documents.{documents_of_both};
ghost use Rattle.linker.specs.Sources.{shares_resource};
ghost use Rattle.linker.specs.Together.{together_sound};

use crate::source::Source;
use schema_scan::Compiled;
use std::alloc::{AllocError, Global};
use std::rc::Rc;

/// The documents of two sources that share no resource.
#[derive(Drop)]
pub struct Both<A: Source, B: Source> {
    first: A,
    second: B,
    ghost apart: { list_any (shares_resource (A.documents first)) (B.documents second) ≡ false },
}

impl<A: Source, B: Source> Both<A, B> {
    /// Both together.
    pub fn new(first: A, second: B) -> Both<A, B>
        requires { list_any (shares_resource (A.documents first)) (B.documents second) ≡ false }
        ensures first { result.first ≡ first }
        ensures second { result.second ≡ second }
    {
        Both { first, second }
    }
}

impl<A: Source, B: Source> Source for Both<A, B> {
    ghost documents = { λ b. documents_of_both (B.documents b.second) (A.documents b.first) };

    fn holding(
        &mut self,
        alloc: Global,
        resource: &str,
    ) -> Result<Option<Rc<Compiled>>, AllocError> {
        match self.first.holding(alloc, resource)? {
            Some(document) => Ok(Some(document)),
            None => self.second.holding(alloc, resource),
        }
    }

    ghost sound = { λ b. together_sound (A.documents b.first) (B.documents b.second) (A.sound b.first) (B.sound b.second) b.apart };
}
