//! The URI that a document stands under (RFC 3986, section 5.1).

ghost use Rattle.std.specs.Prelude.{◌≡◌, ◌≢◌, Ok, Err, IfOk, IfErr, string_bytes};
ghost use Rattle.definitions.specs.Resolution.{base_form};
ghost use Rattle.faults.specs.View.{fault_view};

use crate::parts::is_identifier;
use crate::recomposing::recompose;
use crate::resolving::resolve;
use crate::splitting::split;
use faults::Fault;
use std::alloc::Global;

/// The text of the URI, resolved against itself, so that its path has no dot segment (RFC 3986, section 5.2.4).
///
/// A URI with a fragment, with no scheme, or that resolves to no identifier is [`Fault::BadUri`]. The only other error is
/// want of memory.
pub fn base_form(alloc: Global, uri: &str) -> Result<String, Fault>
    ensures ok { IfOk result (λ s. base_form uri.now ≡ Ok (string_bytes s)) }
    ensures err { IfErr result (λ f. f ≢ Fault.NoRoom → base_form uri.now ≡ Err (fault_view f)) }
{
    let parts = split(uri);
    if parts.fragment().is_some() || parts.scheme().is_none() {
        return Err(Fault::BadUri);
    }
    let resolved = resolve(alloc, &parts, &parts)?;
    let base = resolved.parts();
    if !is_identifier(&base) {
        return Err(Fault::BadUri);
    }
    Ok(recompose(alloc, &base)?)
}
