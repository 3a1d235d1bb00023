//! Replies, whole.
ghost use Rattle.std.specs.Prelude.{◌≡◌, ◌++◌, OnOk, IfErr, map, string_bytes};
ghost use Rattle.std.specs.List.{list_all};
ghost use Rattle.http_definitions.specs.ReplyTexts.{closing_text, reply_text, refused_status, stored_status};
ghost use Rattle.faults.specs.View.{fault_view};
ghost use Rattle.reply_texts.specs.Bodies.{refusal_text};
ghost use Rattle.requests.specs.Views.{reply_view, stored_entry_view};

use crate::bodies::{deleted_body, fault_body, stored_all_body, stored_body};
use crate::heads::{write_http, write_output};
use faults::Fault;
use requests::{Reply, StoredEntry};
use std::alloc::{AllocError, Global};

// The status of a refusal; no request is refused by a fault that has none.
fn refused_status(refusal: &Fault) -> u16
    ensures { result ≡ refused_status (fault_view refusal.now) }
{
    refusal.status().unwrap_or(400)
}

fn all_replaced(entries: &[StoredEntry]) -> bool
    ensures { result ≡ list_all (λ d. d.1) (map stored_entry_view entries.now) }
{
    entries.iter().all(|entry| entry.replaced)
}

// Created where one is new.
fn stored_status(entries: &[StoredEntry]) -> u16
    ensures { result ≡ stored_status (map stored_entry_view entries.now) }
{
    if all_replaced(entries) { 200 } else { 201 }
}

fn write_refusal(
    alloc: Global,
    out: &mut String,
    closes: bool,
    entry: Option<usize>,
    refusal: &Fault,
) -> Result<(), AllocError>
    ensures { OnOk result (string_bytes out.new
        ≡ string_bytes out.old ++ refusal_text closes entry (fault_view refusal.now)) }
{
    let body = fault_body(alloc, entry, refusal)?;
    write_http(out, closes, refused_status(refusal), body.as_str())
}

/// Appends the reply's bytes. The only error is want of memory, [`Fault::NoRoom`]; then a first part of them may stand
/// in `out`.
pub fn write_reply(
    alloc: Global,
    out: &mut String,
    closes: bool,
    reply: &Reply,
) -> Result<(), Fault>
    ensures ok { OnOk result
        (string_bytes out.new ≡ string_bytes out.old ++ reply_text closes (reply_view reply.now)) }
    ensures err { IfErr result (λ f. f ≡ Fault.NoRoom) }
{
    match reply {
        Reply::Output(output) => write_output(out, closes, output)?,
        Reply::Bundled(text) => write_http(out, closes, 200, text.as_str())?,
        Reply::Stored(uri, replaced) => {
            let body = stored_body(alloc, uri.as_str(), *replaced)?;
            let status = if *replaced { 200 } else { 201 };
            write_http(out, closes, status, body.as_str())?;
        }
        Reply::Deleted(uri) => {
            let body = deleted_body(alloc, uri.as_str())?;
            write_http(out, closes, 200, body.as_str())?;
        }
        Reply::StoredAll(entries) => {
            let body = stored_all_body(alloc, entries)?;
            write_http(out, closes, stored_status(entries), body.as_str())?;
        }
        Reply::Refused(refusal) => write_refusal(alloc, out, closes, None, refusal)?,
        Reply::RefusedAt(index, refusal) => {
            write_refusal(alloc, out, closes, Some(*index), refusal)?;
        }
    }
    Ok(())
}

/// Appends what a connection past hope is told: the refusal [`Fault::BadRequest`], behind which the connection is closed.
/// The only error is want of memory, [`Fault::NoRoom`].
pub fn write_closing(alloc: Global, out: &mut String) -> Result<(), Fault>
    ensures ok { OnOk result (string_bytes out.new ≡ string_bytes out.old ++ closing_text) }
    ensures err { IfErr result (λ f. f ≡ Fault.NoRoom) }
{
    write_refusal(alloc, out, true, None, &Fault::BadRequest)?;
    Ok(())
}
