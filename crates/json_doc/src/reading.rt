//! From a JSON text to a value.

ghost use Rattle.std.specs.Prelude.{◌≡◌, ◌≢◌, Some, None, Ok, Err, IfOk, IfErr, map};
ghost use Rattle.serde_json.specs.Find.{as_integer};
ghost use Rattle.serde_json.specs.Read.{read as read_text};
ghost use Rattle.serde_json.specs.View.{view, number_view, items_view, members_view as entries_view};
ghost use Rattle.definitions.specs.Values.{to_elements};
ghost use Rattle.definitions.specs.Texts.{parsed_value, value_or_bad_json, value_of, elements_of, members_of};
ghost use Rattle.faults.specs.View.{fault_view};
ghost use Rattle.json_doc.specs.Docs.{value, members_view};

mod direct;

use crate::doc::Doc;
use crate::members::Members;
use crate::whole::Whole;
use direct::{Unread, read_directly};
use faults::Fault;
use json::Scratch;
use serde_json::{Map, Number, Value};
use std::alloc::Global;

/// Reads a JSON text (RFC 8259) in UTF-8 that nests at most 127 deep. Of repeated names the last wins.
///
/// `Fault::BadJson` where the bytes are no such text, or hold a number that no float comes near, as `1e400`; else
/// `Fault::BadNumber` where the value holds a number that is not a whole number from -2^63 to 2^64 - 1, as `1.0` and
/// `-0`. `Fault::NoRoom` is want of memory, which may take the place of any other answer.
pub fn read(alloc: Global, bytes: &[u8]) -> Result<Doc, Fault>
    ensures ok { IfOk result (λ d. parsed_value bytes.now ≡ Ok (value d)) }
    ensures err { IfErr result
        (λ f. f ≢ Fault.NoRoom → parsed_value bytes.now ≡ Err (fault_view f)) }
{
    let mut scratch = Scratch::new(alloc);
    read_with(alloc, &mut scratch, bytes)
}

/// Reads a JSON text as [`read`] does, with the same faults, in memory that is kept from one text to the next: to make
/// new memory takes the time of many small texts. It grows to the length of the longest text.
pub fn read_with(alloc: Global, scratch: &mut Scratch, bytes: &[u8]) -> Result<Doc, Fault>
    ensures ok { IfOk result (λ d. parsed_value bytes.now ≡ Ok (value d)) }
    ensures err { IfErr result
        (λ f. f ≢ Fault.NoRoom → parsed_value bytes.now ≡ Err (fault_view f)) }
{
    match simdutf8::basic::from_utf8(bytes) {
        Ok(text) => doc_of_text(alloc, scratch, text),
        Err(_) => Err(Fault::BadJson),
    }
}

fn doc_of_text(alloc: Global, scratch: &mut Scratch, text: &str) -> Result<Doc, Fault>
    ensures ok { IfOk result (λ d. value_or_bad_json (read_text text.now) ≡ Ok (value d)) }
    ensures err { IfErr result (λ f. f ≢ Fault.NoRoom
        → value_or_bad_json (read_text text.now) ≡ Err (fault_view f)) }
{
    match read_directly(alloc, scratch, text) {
        Ok(doc) => Ok(doc),
        Err(Unread::NoRoom) => Err(Fault::NoRoom),
        Err(Unread::NotSure) => read_by_value(alloc, text),
    }
}

// Reads the value of a text by way of the value that `serde_json` reads.
fn read_by_value(alloc: Global, text: &str) -> Result<Doc, Fault>
    ensures ok { IfOk result (λ d. value_or_bad_json (read_text text.now) ≡ Ok (value d)) }
    ensures err { IfErr result (λ f. f ≢ Fault.NoRoom
        → value_or_bad_json (read_text text.now) ≡ Err (fault_view f)) }
{
    match Value::from_str(alloc, text) {
        Ok(read) => doc_of(alloc, read),
        Err(error) => if error.is_memory() {
            Err(Fault::NoRoom)
        } else {
            Err(Fault::BadJson)
        },
    }
}

// The value, with its strings moved and not copied.
#[cycle(read)]
fn doc_of(alloc: Global, read: Value) -> Result<Doc, Fault>
    ensures ok { IfOk result (λ d. value_of (view read) ≡ Some (value d)) }
    ensures err { IfErr result
        (λ f. f ≢ Fault.NoRoom → (f ≡ Fault.BadNumber) × (value_of (view read) ≡ None)) }
{
    match read {
        Value::Null => Ok(Doc::Null),
        Value::Bool(boolean) => Ok(Doc::Bool(boolean)),
        Value::Number(number) => match whole_of(number) {
            Some(whole) => Ok(Doc::Int(whole)),
            None => Err(Fault::BadNumber),
        },
        Value::String(text) => Ok(Doc::of_string(text)),
        Value::Array(items) => Ok(Doc::List(docs_of(alloc, items)?)),
        Value::Object(members) => Ok(Doc::Dict(dict_of(alloc, members)?)),
    }
}

#[cycle(read)]
fn docs_of(alloc: Global, items: Vec<Value>) -> Result<Vec<Doc>, Fault>
    ensures ok { IfOk result
        (λ v. elements_of (items_view items.items) ≡ Some (to_elements (map value v.items))) }
    ensures err { IfErr result
        (λ f. f ≢ Fault.NoRoom → (f ≡ Fault.BadNumber)
        × (elements_of (items_view items.items) ≡ None)) }
{
    let mut docs = Vec::with_capacity(alloc, items.len())?;
    for item in items {
        docs.push(doc_of(alloc, item)?)?;
    }
    Ok(docs)
}

#[cycle(read)]
fn dict_of(alloc: Global, members: Map<String, Value>) -> Result<Members, Fault>
    ensures ok { IfOk result
        (λ m. members_of (entries_view members.entries) ≡ Some (members_view m)) }
    ensures err { IfErr result
        (λ f. f ≢ Fault.NoRoom → (f ≡ Fault.BadNumber)
        × (members_of (entries_view members.entries) ≡ None)) }
{
    let mut dict = Members::new(alloc);
    for (name, member) in members {
        dict.insert(alloc, name.as_str(), doc_of(alloc, member)?)?;
    }
    Ok(dict)
}

// The number, if it is whole and 64 bits hold it.
fn whole_of(number: Number) -> Option<Whole>
    ensures { result ≡ as_integer (number_view number) }
{
    match number.as_u64() {
        Some(natural) => Some(Whole::of(natural)),
        None => match number.as_i64() {
            Some(negative) => Some(Whole::of_signed(negative)),
            None => None,
        },
    }
}
