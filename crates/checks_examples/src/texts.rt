//! Checks of texts, and what tests expect of an outcome: where it is otherwise, the test ends and says why it should be so.

use checks::{Fault, check_bytes, check_input};
use std::alloc::{AllocError, Global};
use std::process::Abort;

/// The URI that most schemas stand under.
pub const URI: &str = "https://ex.org/s";

/// The text of the report on two texts, where the schema stands under this URI.
pub fn answer(alloc: Global, uri: &str, schema: &str, instance: &str) -> Result<String, Fault> {
    Ok(check_bytes(alloc, uri, schema.as_bytes(), instance.as_bytes())?.into_text())
}

/// The text of the report on one text that holds both.
pub fn input_answer(alloc: Global, input: &str) -> Result<String, Fault> {
    Ok(check_input(alloc, input.as_bytes())?.into_text())
}

fn told(alloc: Global, outcome: Result<String, Fault>) -> Result<String, AllocError> {
    match outcome {
        Ok(text) => Ok(text),
        Err(fault) => format!(in alloc; "{fault}"),
    }
}

/// Expects this text, or a fault that is told so.
pub fn expect_told(
    rt: &impl Abort,
    alloc: Global,
    outcome: Result<String, Fault>,
    wanted: &str,
    why: &str,
) {
    match told(alloc, outcome) {
        Ok(text) => assert_eq!(rt; text.as_str(), wanted, "{why}"),
        Err(_) => panic!(rt; "{why}: no room"),
    }
}

/// Expects a text that begins so, or a fault that is told so.
pub fn expect_beginning(
    rt: &impl Abort,
    alloc: Global,
    outcome: Result<String, Fault>,
    wanted: &str,
    why: &str,
) {
    match told(alloc, outcome) {
        Ok(text) => assert!(rt; text.as_str().starts_with(wanted), "{why}"),
        Err(_) => panic!(rt; "{why}: no room"),
    }
}

/// Expects a text, and the same one as the other.
pub fn expect_same(
    rt: &impl Abort,
    outcome: Result<String, Fault>,
    wanted: Result<String, Fault>,
    why: &str,
) {
    match (outcome, wanted) {
        (Ok(text), Ok(wanted)) => assert!(rt; text.as_str() == wanted.as_str(), "{why}"),
        _ => panic!(rt; "{why}: refused"),
    }
}

/// Expects that something holds.
pub fn expect_holds(rt: &impl Abort, outcome: Result<bool, Fault>, why: &str) {
    match outcome {
        Ok(holds) => assert!(rt; holds, "{why}"),
        Err(fault) => panic!(rt; "{why}: {fault}"),
    }
}
