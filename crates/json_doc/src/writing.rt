//! From a value to its JSON text.

ghost use Rattle.std.specs.Prelude.{◌≡◌, ◌≤◌, ◌++◌, Ok, true, IfOk, OnOk, map, string_bytes};
ghost use Rattle.definitions.specs.Values.{nesting, integer, fits_64_bits, is_well_formed, are_well_formed, are_well_formed_members, to_elements};
ghost use Rattle.definitions.specs.Texts.{parsed_value, text};
ghost use Rattle.json_doc.specs.Docs.{value, members_view};
ghost use Rattle.json_doc.specs.Tokens.{value_tokens, elements_tokens, members_tokens};

use crate::doc::Doc;
use crate::members::Members;
use crate::whole::Whole;
use json::Writer;
use std::alloc::{AllocError, Global};

/// The value as a JSON text (RFC 8259) with no space, its names in byte order. A value that nests at most 127 deep is
/// read back from its text. The only error is want of memory.
pub fn write(alloc: Global, doc: &Doc) -> Result<String, AllocError>
    ensures text { IfOk result (λ s. string_bytes s ≡ text (value doc.now)) }
    ensures reads_back { IfOk result
        (λ s. nesting (value doc.now) ≤ 127 → parsed_value (string_bytes s) ≡ Ok (value doc.now)) }
{
    let mut out = Writer::new(Vec::with_capacity(alloc, 128)?);
    write_doc(doc, &mut out)?;
    let bytes = out.into_inner();
    Ok(unsafe { String::from_utf8_unchecked(bytes) })
}

/// Writes the value after what `out` holds, as [`write`] does. The only error is want of memory.
// The walk sees each number, text and name once, so it also finds that the value is well formed.
#[cycle(write)]
pub fn write_doc(doc: &Doc, out: &mut Writer) -> Result<(), AllocError>
    ensures ok { OnOk result (out.new.tokens ≡ out.old.tokens ++ value_tokens (value doc.now)) }
    ensures before { out.new.before ≡ out.old.before }
    ensures well_formed { OnOk result (is_well_formed (value doc.now) ≡ true) }
{
    match doc {
        Doc::Null => out.null(),
        Doc::Bool(boolean) => out.boolean(*boolean),
        Doc::Int(number) => write_whole(*number, out),
        Doc::Str(text) => out.string(text.as_str()),
        Doc::Short(text) => out.string(text.as_str()),
        Doc::List(items) => {
            out.begin_array()?;
            write_items(items.as_slice(), out)
        }
        Doc::Dict(members) => {
            out.begin_object()?;
            write_members(members, out)
        }
    }
}

#[cycle(write)]
fn write_items(items: &[Doc], out: &mut Writer) -> Result<(), AllocError>
    ensures ok { OnOk result
        (out.new.tokens ≡ out.old.tokens ++ elements_tokens (to_elements (map value items.now))) }
    ensures before { out.new.before ≡ out.old.before }
    ensures well_formed { OnOk result (are_well_formed (to_elements (map value items.now)) ≡ true) }
{
    for item in items {
        write_doc(item, out)?;
    }
    out.end_array()
}

#[cycle(write)]
fn write_members(members: &Members, out: &mut Writer) -> Result<(), AllocError>
    ensures ok { OnOk result
        (out.new.tokens ≡ out.old.tokens ++ members_tokens (members_view members.now)) }
    ensures before { out.new.before ≡ out.old.before }
    ensures well_formed { OnOk result (are_well_formed_members (members_view members.now) ≡ true) }
{
    for (name, member) in members.iter() {
        out.key(name)?;
        write_doc(member, out)?;
    }
    out.end_object()
}

fn write_whole(number: Whole, out: &mut Writer) -> Result<(), AllocError>
    ensures ok { OnOk result (out.new.tokens ≡ out.old.tokens ++ value_tokens (integer number)) }
    ensures before { out.new.before ≡ out.old.before }
    ensures fits { fits_64_bits number ≡ true }
{
    let number = number.number();
    if number < 0 {
        out.i64(number as i64)
    } else {
        out.u64(number as u64)
    }
}
