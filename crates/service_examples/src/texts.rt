//! Texts of rows: pieces that are repeated, and answers that are told in part. What tests expect of an outcome stands below:
//! where it is otherwise, the test ends and names the row.

use requests::Fault;
use std::alloc::{AllocError, Global};
use std::process::Abort;

// The copies of a piece between what stands before and after the number of each.
fn push_numbered(
    alloc: Global,
    text: &mut String,
    count: u32,
    piece: (&str, &str),
) -> Result<(), AllocError> {
    for number in 1..=count {
        text.push_str(piece.0)?;
        text.push_str(format!(in alloc; "{number}")?.as_str())?;
        text.push_str(piece.1)?;
    }
    Ok(())
}

/// Appends so many copies of a piece.
pub fn push_copies(text: &mut String, count: u32, piece: &str) -> Result<(), AllocError> {
    for _ in 0..count {
        text.push_str(piece)?;
    }
    Ok(())
}

// A number, a star, and the piece.
fn push_counted(alloc: Global, text: &mut String, counted: &str) -> Result<(), AllocError> {
    let (count, piece) = counted.split_once('*').unwrap_or(("0", ""));
    let count: u32 = count.parse().unwrap_or(0);
    match piece.split_once('№') {
        Some(around) => push_numbered(alloc, text, count, around),
        None => push_copies(text, count, piece),
    }
}

/// The text, with so many copies of a piece where `«64*piece»` stands. A `№` in the piece is the number of its copy, from 1.
pub fn filled(alloc: Global, text: &str) -> Result<String, AllocError> {
    let mut whole = String::new(alloc);
    for part in text.split('«') {
        match part.split_once('»') {
            Some((counted, rest)) => {
                push_counted(alloc, &mut whole, counted)?;
                whole.push_str(rest)?;
            }
            None => whole.push_str(part)?,
        }
    }
    Ok(whole)
}

/// Whether a text is what a row wants, once it is [`filled`]. A `…` there, or two, stand for any text.
pub fn is_like(alloc: Global, text: &str, wanted: &str) -> Result<bool, AllocError> {
    let wanted = filled(alloc, wanted)?;
    match wanted.as_str().split_once('…') {
        Some((head, rest)) => {
            let (part, tail) = rest.split_once('…').unwrap_or(("", rest));
            Ok(text.starts_with(head) && text.contains(part) && text.ends_with(tail))
        }
        None => Ok(text == wanted.as_str()),
    }
}

fn told(alloc: Global, outcome: Result<String, Fault>) -> Result<String, AllocError> {
    match outcome {
        Ok(text) => Ok(text),
        Err(fault) => format!(in alloc; "{fault}"),
    }
}

/// Expects a text that is like the wanted one, or a fault that is told so.
pub fn expect_like(
    rt: &impl Abort,
    alloc: Global,
    outcome: Result<String, Fault>,
    wanted: &str,
    row: &str,
) {
    match told(alloc, outcome) {
        Ok(text) => expect_text_like(rt, alloc, text.as_str(), wanted, row),
        Err(_) => panic!(rt; "{row}: no room"),
    }
}

fn expect_text_like(rt: &impl Abort, alloc: Global, text: &str, wanted: &str, row: &str) {
    match is_like(alloc, text, wanted) {
        Ok(is_like) => assert!(rt; is_like, "{row}: {text}, and not {wanted}"),
        Err(_) => panic!(rt; "{row}: no room"),
    }
}

/// Expects the same text as the other, or the same fault.
pub fn expect_same(
    rt: &impl Abort,
    outcome: Result<String, Fault>,
    wanted: Result<String, Fault>,
    row: &str,
) {
    match (outcome, wanted) {
        (Ok(text), Ok(wanted)) => assert_eq!(rt; text.as_str(), wanted.as_str(), "{row}"),
        (Err(fault), Err(wanted)) => assert!(rt; fault == wanted, "{row}: {fault}"),
        _ => panic!(rt; "{row}: refused alone"),
    }
}

/// Expects that something holds.
pub fn expect_holds(rt: &impl Abort, outcome: Result<bool, Fault>, row: &str) {
    match outcome {
        Ok(holds) => assert!(rt; holds, "{row}"),
        Err(fault) => panic!(rt; "{row}: {fault}"),
    }
}
