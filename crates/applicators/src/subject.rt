//! What a schema is applied to.

ghost use Rattle.std.specs.Prelude.{◌≡◌, [], map, option_map, unwrap_or};
ghost use Rattle.definitions.specs.Values.{elements, members, get, as_string, is_array, is_object};
ghost use Rattle.json_doc.specs.Docs.{value, members_value};
ghost use Rattle.applicators.specs.Subjects.{subject_value};

use json_doc::{Doc, Members, Name};

/// What a schema is applied to: a value of the instance, or one of its names as a string (JSON Schema 2020-12 Core,
/// 10.3.2.4).
///
/// Contracts see the value, by `subject_value`.
#[derive(Clone, Copy, Debug)]
pub enum Subject<'a> {
    /// A value of the instance.
    Value(&'a Doc),
    /// A name of an object.
    Name(Name<'a>),
}

impl<'a> Subject<'a> {
    /// The elements, where it is an array, and none otherwise.
    pub fn elements(self) -> &'a [Doc]
        ensures { map value result.now ≡ elements (subject_value self.entry) }
    {
        match self {
            Subject::Value(doc) => elements_of(doc),
            Subject::Name(_) => &[],
        }
    }

    /// The members, where it is an object.
    pub fn members(self) -> Option<&'a Members>
        ensures { unwrap_or (option_map (λ m. members_value m.now) result) []
            ≡ members (subject_value self.entry) }
    {
        match self {
            Subject::Value(doc) => members_of(doc),
            Subject::Name(_) => None,
        }
    }

    /// The text, where it is a string.
    pub fn as_str(self) -> Option<&'a str>
        ensures { option_map (λ s. s.now) result ≡ as_string (subject_value self.entry) }
    {
        match self {
            Subject::Value(doc) => doc.as_str(),
            Subject::Name(name) => Some(name.as_str()),
        }
    }

    /// Whether it is an array.
    pub fn is_array(self) -> bool
        ensures { result ≡ is_array (subject_value self.entry) }
    {
        matches!(self, Subject::Value(Doc::List(_)))
    }

    /// Whether it is an object.
    pub fn is_object(self) -> bool
        ensures { result ≡ is_object (subject_value self.entry) }
    {
        matches!(self, Subject::Value(Doc::Dict(_)))
    }

    /// The member of this name, where it is an object that has one.
    pub fn get(self, name: &str) -> Option<&'a Doc>
        ensures { option_map (λ d. value d.now) result ≡ get name.now (subject_value self.entry) }
    {
        match self {
            Subject::Value(doc) => doc.get(name),
            Subject::Name(_) => None,
        }
    }
}

// The elements of an array, and of another value none.
pub(crate) fn elements_of(doc: &Doc) -> &[Doc]
    ensures { map value result.now ≡ elements (value doc.now) }
{
    match doc {
        Doc::List(items) => items,
        _ => &[],
    }
}

/// The members, where it is an object.
pub fn members_of(doc: &Doc) -> Option<&Members>
    ensures { unwrap_or (option_map (λ m. members_value m.now) result) []
        ≡ members (value doc.now) }
{
    match doc {
        Doc::Dict(members) => Some(members),
        _ => None,
    }
}
