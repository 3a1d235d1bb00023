//! Reading the words and the files.
ghost use Rattle.std.specs.Prelude.{◌≡◌, ◌≢◌, ◌⊎◌, IfOk, IfErr, IfSome};
ghost use Rattle.std.specs.IoError.{error_kind};
ghost use Rattle.service_forms.specs.Stops.{IsUnread};

use faults::Fault;
use service_forms::Stop;
use std::alloc::Global;
use std::io::{self, ErrorKind, Read};
use std::rt::{Env, Files};
use std::{env, fs};

/// Why the words cannot be read.
fn unread_words<'a>(error: &io::Error) -> Stop<'a>
    ensures room { error_kind error.now ≡ ErrorKind.OutOfMemory
        → result ≡ Stop.Refused Fault.NoRoom }
    ensures other { error_kind error.now ≢ ErrorKind.OutOfMemory → result ≡ Stop.NotText }
{
    match error.kind() {
        ErrorKind::OutOfMemory => Stop::Refused(Fault::NoRoom),
        _ => Stop::NotText,
    }
}

/// The words of the command line, the program's own name first.
pub fn words<'a, R: Env + AllocGlobal>(rt: &R) -> Result<Vec<String>, Stop<'a>>
    ensures err { IfErr result (λ stop.
        (stop ≡ Stop.NotText) ⊎ (stop ≡ Stop.Refused Fault.NoRoom)) }
{
    match env::args(rt) {
        Ok(words) => Ok(words.collect(rt.alloc()).map_err(Fault::from)?),
        Err(error) => Err(unread_words(&error)),
    }
}

/// Why `name` cannot be read. Want of memory is a refusal like any other.
fn unread<'a>(error: &io::Error, name: &'a str) -> Stop<'a>
    ensures unread { IsUnread name.now result }
    ensures room { error_kind error.now ≡ ErrorKind.OutOfMemory
        → result ≡ Stop.Refused Fault.NoRoom }
    ensures other { error_kind error.now ≢ ErrorKind.OutOfMemory
        → result ≡ Stop.CannotRead name.entry }
{
    match error.kind() {
        ErrorKind::OutOfMemory => Stop::Refused(Fault::NoRoom),
        _ => Stop::CannotRead(name),
    }
}

/// All bytes that the reader has left. A failure to read them calls it `name`.
pub fn whole<'a, R: Read>(alloc: Global, reader: &mut R, name: &'a str) -> Result<Vec<u8>, Stop<'a>>
    ensures ok { IfOk result (λ bytes.
        IfSome (R.remaining reader.old) (λ left. bytes.items ≡ left)) }
    ensures err { IfErr result (IsUnread name.now) }
{
    let mut bytes = Vec::new(alloc);
    match reader.read_to_end(&mut bytes) {
        Ok(_) => Ok(bytes),
        Err(error) => Err(unread(&error, name)),
    }
}

/// All bytes of a file.
pub fn file<'a, R: Files>(alloc: Global, rt: &R, path: &'a str) -> Result<Vec<u8>, Stop<'a>>
    ensures err { IfErr result (IsUnread path.now) }
{
    match fs::open(rt, path) {
        Ok(mut file) => whole(alloc, &mut file, path),
        Err(error) => Err(unread(&error, path)),
    }
}
