//! The URIs that references and `$id`s make inside a base (RFC 3986, section 5.2; JSON Schema 2020-12 Core, sections 8.2.1
//! and 8.2.3).

ghost use Rattle.std.specs.Prelude.{◌≡◌, IfOk, string_bytes};
ghost use Rattle.definitions.specs.Uris.{without_fragment};
ghost use Rattle.definitions.specs.Resolution.{target_uri};

use crate::recomposing::recompose;
use crate::resolving::resolve;
use crate::splitting::split;
use std::alloc::{AllocError, Global};

/// The reference, resolved against the base (RFC 3986, section 5.2). It fails only for want of memory.
pub fn resolved_uri(alloc: Global, base: &str, reference: &str) -> Result<String, AllocError>
    ensures { IfOk result (λ uri. string_bytes uri ≡ target_uri base.now reference.now) }
{
    let parts = resolve(alloc, &split(base), &split(reference))?;
    recompose(alloc, &parts.parts())
}

/// The URI of the resource that a schema with this `$id` opens inside this base: the `$id`, resolved against the base, up to
/// its fragment (JSON Schema 2020-12 Core, section 8.2.1). It fails only for want of memory.
pub fn opened_uri(alloc: Global, base: &str, id: &str) -> Result<String, AllocError>
    ensures { IfOk result
        (λ uri. string_bytes uri ≡ without_fragment (target_uri base.now id.now)) }
{
    let opened = resolve(alloc, &split(base), &split(id))?;
    recompose(alloc, &opened.parts().without_fragment())
}
