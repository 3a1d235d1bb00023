//! The lines before a body.
ghost use Rattle.std.specs.Prelude.{◌≡◌, ◌++◌, [], IfNone, IfSome, OnOk, decimal, string_bytes};
ghost use Rattle.output_texts.specs.Outputs.{output_view};
ghost use Rattle.reply_texts.specs.Heads.{behind_length, head_text};
ghost use Rattle.http_definitions.specs.ReplyTexts.{http_text, phrase_of, status_line};

use output_texts::Output;
use std::alloc::AllocError;

// The first line of a reply with this status (RFC 9112, section 4, with the phrases of RFC 9110, section 15); none where no reply
// has it.
#[tactic(auto, unfolding(http_definitions::specs::ReplyTexts::phrase_of))]
fn known_line(status: u16) -> Option<&'static str>
    ensures some { IfSome result (λ line. line.now ≡ status_line status) }
    ensures none { IfNone result (phrase_of status ≡ []) }
{
    match status {
        200 => Some("HTTP/1.1 200 OK\r\n"),
        201 => Some("HTTP/1.1 201 Created\r\n"),
        400 => Some("HTTP/1.1 400 Bad Request\r\n"),
        403 => Some("HTTP/1.1 403 Forbidden\r\n"),
        404 => Some("HTTP/1.1 404 Not Found\r\n"),
        409 => Some("HTTP/1.1 409 Conflict\r\n"),
        503 => Some("HTTP/1.1 503 Service Unavailable\r\n"),
        _ => None,
    }
}

// What stands between the length and the body.
fn behind_length(closes: bool) -> &'static str
    ensures { result.now ≡ behind_length closes }
{
    if closes {
        "\r\nconnection: close\r\n\r\n"
    } else {
        "\r\n\r\n"
    }
}

fn write_number(out: &mut String, number: usize) -> Result<(), AllocError>
    ensures { OnOk result (string_bytes out.new ≡ string_bytes out.old ++ decimal number) }
{
    let mut digits = itoa::Buffer::new();
    out.push_str(digits.format(number))
}

fn write_status_line(out: &mut String, status: u16) -> Result<(), AllocError>
    ensures { OnOk result (string_bytes out.new ≡ string_bytes out.old ++ status_line status) }
{
    match known_line(status) {
        Some(line) => out.push_str(line),
        None => write_line_without_phrase(out, status),
    }
}

fn write_line_without_phrase(out: &mut String, status: u16) -> Result<(), AllocError>
    requires { phrase_of status ≡ [] }
    ensures { OnOk result (string_bytes out.new ≡ string_bytes out.old ++ status_line status) }
{
    out.push_str("HTTP/1.1 ")?;
    write_number(out, usize::from(status))?;
    out.push_str(" \r\n")
}

/// How many bytes stand before a body, at most.
const MOST_HEAD: usize = 128;

// What stands before a body of so many bytes, with room for the body behind it.
fn write_head(out: &mut String, closes: bool, status: u16, length: usize) -> Result<(), AllocError>
    ensures { OnOk result (string_bytes out.new
        ≡ string_bytes out.old ++ head_text closes status length) }
{
    out.reserve(length.saturating_add(MOST_HEAD))?;
    write_status_line(out, status)?;
    out.push_str("content-type: application/json\r\ncontent-length: ")?;
    write_number(out, length)?;
    out.push_str(behind_length(closes))?;
    Ok(())
}

/// Appends a whole reply, of which the body is JSON. One after which the connection is closed says so.
pub fn write_http(out: &mut String, closes: bool, status: u16, body: &str) -> Result<(), AllocError>
    ensures { OnOk result (string_bytes out.new
        ≡ string_bytes out.old ++ http_text closes status body.now) }
{
    write_head(out, closes, status, body.len())?;
    out.push_str(body)?;
    Ok(())
}

/// Appends a whole reply, of which the body is the text of an output: it is written into its place.
pub fn write_output(out: &mut String, closes: bool, output: &Output) -> Result<(), AllocError>
    ensures { OnOk result (string_bytes out.new
        ≡ string_bytes out.old ++ http_text closes 200 (output_view output.now).1) }
{
    write_head(out, closes, 200, output.text_len())?;
    output.write(out)
}
