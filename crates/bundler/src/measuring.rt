//! The limits of a bundle.

ghost use Rattle.std.specs.Prelude.{◌≡◌, ◌≢◌, Ok, Err, IfOk, IfErr};
ghost use Rattle.definitions.specs.Bundles.{value_or_too_large};
ghost use Rattle.faults.specs.View.{fault_view};
ghost use Rattle.json_doc.specs.Docs.{value};

use faults::Fault;
use json_doc::{Doc, nesting, write};
use std::alloc::Global;

// How many bytes a bundle's compact text may have, and how deep a bundle may nest.
const MOST_BYTES: usize = 1_048_576;

const MOST_NESTED: usize = 120;

// The bundle, where it is within the limits.
pub(crate) fn within_limits(alloc: Global, whole: Doc) -> Result<Doc, Fault>
    ensures ok { IfOk result (λ d. value_or_too_large (value whole) ≡ Ok (value d)) }
    ensures err { IfErr result
        (λ f. f ≢ Fault.NoRoom → value_or_too_large (value whole) ≡ Err (fault_view f)) }
{
    if nesting(&whole) > MOST_NESTED {
        return Err(Fault::BundleTooLarge);
    }
    if write(alloc, &whole)?.len() > MOST_BYTES {
        return Err(Fault::BundleTooLarge);
    }
    Ok(whole)
}
