//! What the program prints for a check, without the line feed.

use crate::texts::expect_told;
use checks::{Fault, Report, check_bytes, check_input};
use std::alloc::Global;
use std::process::Abort;

/// A schema under this URI, an instance, and what is answered.
pub struct FileCheck {
    pub why: &'static str,
    pub uri: &'static str,
    pub schema: &'static str,
    pub instance: &'static str,
    pub wanted: &'static str,
}

fn printed(alloc: Global, outcome: Result<Report, Fault>) -> Result<String, Fault> {
    match outcome {
        Ok(report) => Ok(report.into_text()),
        Err(fault) => Ok(format!(in alloc; "refused: {fault}")?),
    }
}

/// Expects this answer to two texts.
pub fn expect_files(rt: &impl Abort, alloc: Global, row: &FileCheck) {
    let outcome = check_bytes(
        alloc,
        row.uri,
        row.schema.as_bytes(),
        row.instance.as_bytes(),
    );
    expect_told(rt, alloc, printed(alloc, outcome), row.wanted, row.why);
}

/// Expects this answer to one text that holds both: why, the text, and the answer.
pub fn expect_standard_input(rt: &impl Abort, alloc: Global, row: &(&str, &str, &str)) {
    let (why, input, wanted) = *row;
    let outcome = check_input(alloc, input.as_bytes());
    expect_told(rt, alloc, printed(alloc, outcome), wanted, why);
}
