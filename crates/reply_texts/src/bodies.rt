//! The bodies of replies, as JSON: the names of each object in byte order.
ghost use Rattle.std.specs.Prelude.{◌≡◌, ◌++◌, ◌∷◌, [], OnOk, IfOk, Option, codes, decimal, map, string_bytes, option_map};
ghost use Rattle.json.specs.Print.{print};
ghost use Rattle.json.specs.Token as json;
ghost use Rattle.definitions.specs.Texts.{text};
ghost use Rattle.faults.specs.View.{fault_view};
ghost use Rattle.http_definitions.specs.ReplyTexts.{stored_value, deleted_value, stored_all_value, fault_value};
ghost use Rattle.requests.specs.Views.{stored_entry_view};
ghost use Rattle.reply_texts.specs.Bodies.{value_tokens, elements_tokens, at_tokens, entry_tokens};

use faults::Fault;
use json::Writer;
use requests::StoredEntry;
use std::alloc::{AllocError, Global};

fn new_writer(alloc: Global) -> Writer
    ensures before { result.before ≡ [] }
    ensures tokens { result.tokens ≡ [] }
{
    Writer::new(Vec::new(alloc))
}

// The text that was written.
fn finished(out: Writer) -> String
    requires { out.before ≡ [] }
    ensures { string_bytes result ≡ print out.tokens }
{
    let bytes = out.into_inner();
    unsafe { String::from_utf8_unchecked(bytes) }
}

fn write_text(out: &mut Writer, name: &str, value: &str) -> Result<(), AllocError>
    ensures ok { OnOk result
        (out.new.tokens ≡ out.old.tokens ++ json.key name.now ∷ json.string value.now ∷ []) }
    ensures before { out.new.before ≡ out.old.before }
{
    out.key(name)?;
    out.string(value)
}

fn write_number(out: &mut Writer, name: &str, value: u64) -> Result<(), AllocError>
    ensures ok { OnOk result
        (out.new.tokens ≡ out.old.tokens ++ json.key name.now ∷ json.number (decimal value) ∷ []) }
    ensures before { out.new.before ≡ out.old.before }
{
    out.key(name)?;
    out.u64(value)
}

fn write_flag(out: &mut Writer, name: &str, value: bool) -> Result<(), AllocError>
    ensures ok { OnOk result
        (out.new.tokens ≡ out.old.tokens ++ json.key name.now ∷ json.boolean value ∷ []) }
    ensures before { out.new.before ≡ out.old.before }
{
    out.key(name)?;
    out.boolean(value)
}

// A stored document, with its URI under the name.
fn write_stored(out: &mut Writer, name: &str, uri: &str, replaced: bool) -> Result<(), AllocError>
    ensures ok { OnOk result
        (out.new.tokens ≡ out.old.tokens
        ++ value_tokens (stored_value name.now (uri.now, replaced))) }
    ensures before { out.new.before ≡ out.old.before }
{
    out.begin_object()?;
    write_flag(out, "replaced", replaced)?;
    write_text(out, name, uri)?;
    out.end_object()
}

/// The body for a document that was stored.
pub fn stored_body(alloc: Global, uri: &str, replaced: bool) -> Result<String, AllocError>
    ensures { IfOk result (λ t. string_bytes t
        ≡ text (stored_value (codes "stored") (uri.now, replaced))) }
{
    let mut out = new_writer(alloc);
    write_stored(&mut out, "stored", uri, replaced)?;
    Ok(finished(out))
}

fn write_deleted(out: &mut Writer, uri: &str) -> Result<(), AllocError>
    ensures ok { OnOk result
        (out.new.tokens ≡ out.old.tokens ++ value_tokens (deleted_value uri.now)) }
    ensures before { out.new.before ≡ out.old.before }
{
    out.begin_object()?;
    write_text(out, "deleted", uri)?;
    out.end_object()
}

/// The body for a document that was removed.
pub fn deleted_body(alloc: Global, uri: &str) -> Result<String, AllocError>
    ensures { IfOk result (λ t. string_bytes t ≡ text (deleted_value uri.now)) }
{
    let mut out = new_writer(alloc);
    write_deleted(&mut out, uri)?;
    Ok(finished(out))
}

// The documents of a batch and the closing bracket.
fn write_entries(out: &mut Writer, entries: &[StoredEntry]) -> Result<(), AllocError>
    ensures ok { OnOk result
        (out.new.tokens ≡ out.old.tokens ++ elements_tokens (map stored_entry_view entries.now)) }
    ensures before { out.new.before ≡ out.old.before }
{
    for entry in entries {
        write_stored(out, "uri", entry.uri.as_str(), entry.replaced)?;
    }
    out.end_array()
}

fn write_stored_all(out: &mut Writer, entries: &[StoredEntry]) -> Result<(), AllocError>
    ensures ok { OnOk result
        (out.new.tokens ≡ out.old.tokens
        ++ value_tokens (stored_all_value (map stored_entry_view entries.now))) }
    ensures before { out.new.before ≡ out.old.before }
{
    out.begin_object()?;
    out.key("stored")?;
    out.begin_array()?;
    write_entries(out, entries)?;
    out.end_object()
}

/// The body for a batch whose documents were stored.
pub fn stored_all_body(alloc: Global, entries: &[StoredEntry]) -> Result<String, AllocError>
    ensures { IfOk result (λ t. string_bytes t
        ≡ text (stored_all_value (map stored_entry_view entries.now))) }
{
    let mut out = new_writer(alloc);
    write_stored_all(&mut out, entries)?;
    Ok(finished(out))
}

fn write_at(out: &mut Writer, at: Option<&str>) -> Result<(), AllocError>
    ensures ok { OnOk result
        (out.new.tokens ≡ out.old.tokens ++ at_tokens (option_map (λ t. t.now) at.entry)) }
    ensures before { out.new.before ≡ out.old.before }
{
    match at {
        Some(text) => write_text(out, "at", text),
        None => Ok(()),
    }
}

fn write_entry(out: &mut Writer, entry: Option<usize>) -> Result<(), AllocError>
    ensures ok { OnOk result (out.new.tokens ≡ out.old.tokens ++ entry_tokens entry) }
    ensures before { out.new.before ≡ out.old.before }
{
    match entry {
        Some(index) => write_number(out, "entry", index as u64),
        None => Ok(()),
    }
}

fn write_fault(out: &mut Writer, entry: Option<usize>, refusal: &Fault) -> Result<(), AllocError>
    ensures ok { OnOk result
        (out.new.tokens ≡ out.old.tokens
        ++ value_tokens (fault_value entry (fault_view refusal.now))) }
    ensures before { out.new.before ≡ out.old.before }
{
    out.begin_object()?;
    write_at(out, refusal.at())?;
    write_entry(out, entry)?;
    write_number(out, "fault", u64::from(refusal.number()))?;
    write_text(out, "name", refusal.name())?;
    out.end_object()
}

/// The body for a refusal, with the entry of a batch that it is of.
pub fn fault_body(
    alloc: Global,
    entry: Option<usize>,
    refusal: &Fault,
) -> Result<String, AllocError>
    ensures { IfOk result (λ t. string_bytes t
        ≡ text (fault_value entry (fault_view refusal.now))) }
{
    let mut out = new_writer(alloc);
    write_fault(&mut out, entry, refusal)?;
    Ok(finished(out))
}
