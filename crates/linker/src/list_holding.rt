//! A list as a source.

ghost use Rattle.std.specs.Prelude.{◌≡◌, IfOk, find, option_map};
ghost use Rattle.definitions.specs.Reach.{holds_resource};
ghost use Rattle.schema_scan.specs.CompiledDocuments.{compiled_view};
ghost use Rattle.linker.specs.ListedDocuments.{listed_documents};
ghost use Rattle.linker.specs.SoundLists.{listed_sound};

use crate::list_source::ListSource;
use crate::source::Source;
use schema_scan::Compiled;
use std::alloc::{AllocError, Global};
use std::rc::Rc;

impl Source for ListSource {
    ghost documents = { listed_documents };

    fn holding(
        &mut self,
        alloc: Global,
        resource: &str,
    ) -> Result<Option<Rc<Compiled>>, AllocError> {
        holding(self, resource)
    }

    ghost sound = { listed_sound };
}

impl Source for &ListSource {
    ghost documents = { λ s. listed_documents s.now };

    fn holding(
        &mut self,
        alloc: Global,
        resource: &str,
    ) -> Result<Option<Rc<Compiled>>, AllocError> {
        holding(self, resource)
    }

    ghost sound = { λ s. listed_sound s.now };
}

// The document of the list that has a resource of this URI.
fn holding(list: &ListSource, resource: &str) -> Result<Option<Rc<Compiled>>, AllocError>
    ensures { IfOk result
        (λ d. option_map (λ it. compiled_view it.value) d
        ≡ find (holds_resource resource.now) (listed_documents list.now)) }
{
    match list.holder(resource) {
        Some(document) => Ok(Some(document.clone()?)),
        None => Ok(None),
    }
}
