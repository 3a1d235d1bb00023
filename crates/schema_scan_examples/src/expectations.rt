//! What tests expect of an outcome: where it is otherwise, the test ends and says why it should be so.

use schema_scan::Fault;
use std::alloc::{AllocError, Global};
use std::process::Abort;

fn told(alloc: Global, outcome: Result<String, Fault>) -> Result<String, AllocError> {
    match outcome {
        Ok(text) => Ok(text),
        Err(fault) => format!(in alloc; "{fault}"),
    }
}

/// Expects this text, or a fault that is told so.
pub fn expect_told(
    rt: &impl Abort,
    alloc: Global,
    outcome: Result<String, Fault>,
    wanted: &str,
    why: &str,
) {
    match told(alloc, outcome) {
        Ok(text) => assert_eq!(rt; text.as_str(), wanted, "{why}"),
        Err(_) => panic!(rt; "{why}: no room"),
    }
}

/// Expects that something holds.
pub fn expect_holds(rt: &impl Abort, outcome: Result<bool, Fault>, why: &str) {
    match outcome {
        Ok(holds) => assert!(rt; holds, "{why}"),
        Err(fault) => panic!(rt; "{why}: {fault}"),
    }
}
