//! The bodies of requests.

ghost use Rattle.std.specs.Prelude.{◌≡◌, ◌≢◌, Ok, Err, IfOk, IfErr};
ghost use Rattle.definitions.specs.Registries.{body_value};
ghost use Rattle.faults.specs.View.{fault_view};
ghost use Rattle.json_doc.specs.Docs.{value};

use json_doc::{Doc, Fault, Scratch, read_with};
use std::alloc::Global;

/// How many bytes a body may have.
const MOST_BYTES: usize = 1_048_576;

/// Reads the body of a request, a JSON text (RFC 8259).
///
/// The first of these faults is answered: `TooLarge` above 1,048,576 bytes, `BadJson`, `BadNumber`. `NoRoom` may take the
/// place of any answer but `TooLarge`.
pub fn read_body(alloc: Global, body: &[u8]) -> Result<Doc, Fault>
    ensures ok { IfOk result (λ d. body_value body.now ≡ Ok (value d)) }
    ensures err { IfErr result (λ f. f ≢ Fault.NoRoom → body_value body.now ≡ Err (fault_view f)) }
{
    let mut scratch = Scratch::new(alloc);
    read_body_with(alloc, &mut scratch, body)
}

/// Reads the body of a request as [`read_body`] does, with the same faults, in memory that is kept from one body to the next.
pub fn read_body_with(alloc: Global, scratch: &mut Scratch, body: &[u8]) -> Result<Doc, Fault>
    ensures ok { IfOk result (λ d. body_value body.now ≡ Ok (value d)) }
    ensures err { IfErr result (λ f. f ≢ Fault.NoRoom → body_value body.now ≡ Err (fault_view f)) }
{
    if body.len() > MOST_BYTES {
        return Err(Fault::TooLarge);
    }
    read_with(alloc, scratch, body)
}
