//! What tests expect of an outcome: where it is otherwise, the test ends and names the row.

use json_doc::Fault;
use std::alloc::{AllocError, Global};
use std::process::Abort;

fn told(alloc: Global, outcome: Result<String, Fault>) -> Result<String, AllocError> {
    match outcome {
        Ok(text) => Ok(text),
        Err(fault) => format!(in alloc; "{fault}"),
    }
}

/// Expects this text, or a fault that is told so.
pub fn expect_told(
    rt: &impl Abort,
    alloc: Global,
    outcome: Result<String, Fault>,
    wanted: &str,
    row: &str,
) {
    match told(alloc, outcome) {
        Ok(text) => assert_eq!(rt; text.as_str(), wanted, "{row}"),
        Err(_) => panic!(rt; "{row}: no room"),
    }
}
