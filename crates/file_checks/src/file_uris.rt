//! The `file:` URIs of paths (RFC 8089).

ghost use Rattle.std.specs.Prelude.{◌≡◌, ◌++◌, IfOk, IfErr, OnOk, codes, string_bytes};
ghost use Rattle.file_checks.specs.FileUris.{SpellsPath, is_rooted, path_in};
ghost use Rattle.percent_encoding.specs.Percent.{percent_encode};

use faults::Fault;
use percent_encoding::{AsciiSet, NON_ALPHANUMERIC, ascii_set, utf8_percent_encode};
use std::alloc::Global;

// What cannot stand in a path of a URI as it is (RFC 3986, section 3.3).
const ESCAPED: AsciiSet = ascii_set!(
    NON_ALPHANUMERIC
        .remove(b'-')
        .remove(b'.')
        .remove(b'_')
        .remove(b'~')
        .remove(b'!')
        .remove(b'$')
        .remove(b'&')
        .remove(b'\'')
        .remove(b'(')
        .remove(b')')
        .remove(b'*')
        .remove(b'+')
        .remove(b',')
        .remove(b';')
        .remove(b'=')
        .remove(b':')
        .remove(b'@')
        .remove(b'/')
);

/// The `file:` URI of an absolute path, with an empty host: each byte that cannot stand in a path of a URI is written as `%`
/// and two digits (RFC 8089, section 2; RFC 3986, section 2.1). The only error is want of memory.
pub fn file_uri(alloc: Global, path: &str) -> Result<String, Fault>
    ensures text { IfOk result
        (λ s. string_bytes s ≡ codes "file://" ++ percent_encode ESCAPED path.now) }
    ensures spells { IfOk result (λ s. SpellsPath (string_bytes s) path.now) }
    ensures room { IfErr result (λ f. f ≡ Fault.NoRoom) }
{
    let mut uri = String::from_str(alloc, "file://")?;
    utf8_percent_encode(path, ESCAPED).append_to(&mut uri)?;
    Ok(uri)
}

/// The path behind that of a folder, unless it begins with a `/`. The only error is want of memory.
pub fn absolute_path(alloc: Global, folder: &str, path: &str) -> Result<String, Fault>
    ensures path { IfOk result (λ s. string_bytes s ≡ path_in folder.now path.now) }
    ensures room { IfErr result (λ f. f ≡ Fault.NoRoom) }
{
    if is_rooted(path) {
        return Ok(String::from_str(alloc, path)?);
    }
    let mut whole = String::from_str(alloc, folder)?;
    whole.push_str("/")?;
    whole.push_str(path)?;
    Ok(whole)
}

// Whether the path begins at the root.
fn is_rooted(path: &str) -> bool
    ensures { result ≡ is_rooted path.now }
{
    match path.as_bytes() {
        [] => false,
        [first, ..] => *first == b'/',
    }
}
