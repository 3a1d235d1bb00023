//! Where documents come from.

ghost use Rattle.std.specs.Prelude.{◌≡◌, List, IfOk, find, option_map};
ghost use Rattle.definitions.specs.Documents.{AreSound};
ghost use Rattle.definitions.specs.Reach.{holds_resource};
ghost use Rattle.definitions.specs.Schemas.{Document};
ghost use Rattle.schema_scan.specs.CompiledDocuments.{compiled_view};

use schema_scan::Compiled;
use std::alloc::{AllocError, Global};
use std::rc::Rc;

/// Documents by the URIs of their resources.
///
/// Contracts see the documents that a source holds, in byte order of their canonical URIs, by its ghost member. They have
/// no fault, and no two of them hold a resource of one URI (JSON Schema 2020-12 Core, section 8.2.1).
pub trait Source {
    /// The documents.
    ghost documents: { Self → List Document };

    /// The document that has a resource of this URI, where one has. The only error is want of memory. Asking leaves the
    /// source with the documents that it had.
    fn holding(&mut self, alloc: Global, resource: &str) -> Result<Option<Rc<Compiled>>, AllocError>
        ensures held { IfOk result
            (λ d. option_map (λ it. compiled_view it.value) d
            ≡ find (holds_resource resource.now) (documents self.old)) }
        ensures same { documents self.new ≡ documents self.old };

    /// They have no fault, stand in byte order, and hold each resource once.
    ghost sound: { (s : Self) → AreSound (documents s) };
}
