//! What a unit says.

use json_doc::{Doc, Name};
use keywords::Keyword;

/// What a unit says: an error's message, or an annotation's value.
///
/// Contracts see the JSON value that is written, by `says_value`.
#[derive(Clone, Copy)]
pub enum Says<'s, 'a> {
    /// The keyword is not met.
    NotMet(Keyword),
    /// The schema is `false`.
    NotAllowed,
    /// `true`
    True,
    /// An index.
    Index(usize),
    /// A list of names.
    Names(&'s [Name<'a>]),
    /// A list of indexes.
    Indexes(&'s [usize]),
    /// A value of the schema's document.
    Value(&'a Doc),
}
