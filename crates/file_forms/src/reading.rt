//! Reading files.

ghost use Rattle.std.specs.Prelude.{◌≡◌, IfOk, IfErr, IfSome};
ghost use Rattle.file_forms.specs.Refusals.{IsUnread};

use crate::trouble::Trouble;
use file_checks::Fault;
use std::alloc::Global;
use std::io::{self, ErrorKind, Read};

/// That what has this name cannot be read. Want of memory is a refusal of it.
pub(crate) fn unread(alloc: Global, error: &io::Error, name: &str) -> Trouble
    ensures { IsUnread name.now result }
{
    match error.kind() {
        ErrorKind::OutOfMemory => Trouble::refused(alloc, name, None, &[], Fault::NoRoom),
        _ => Trouble::cannot_read(alloc, name),
    }
}

/// All bytes that the reader has left.
pub(crate) fn whole<I: Read>(alloc: Global, reader: &mut I, name: &str) -> Result<Vec<u8>, Trouble>
    ensures ok { IfOk result (λ bytes.
        IfSome (I.remaining reader.old) (λ left. bytes.items ≡ left)) }
    ensures err { IfErr result (IsUnread name.now) }
{
    let mut bytes = Vec::new(alloc);
    match reader.read_to_end(&mut bytes) {
        Ok(_) => Ok(bytes),
        Err(error) => Err(unread(alloc, &error, name)),
    }
}
