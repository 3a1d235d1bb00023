//! The keywords that look at their own value and the instance (JSON Schema 2020-12 Validation, section 6).
#![tactic(auto)]

mod assertion;
mod equality;
mod lengths;
mod limits;
mod names;
mod numbers;
mod types;

pub use assertion::{Assertion, holds};
pub use limits::{is_at_least, is_at_most};
