//! JSON values.

ghost use Rattle.std.specs.Prelude.{◌≡◌, ◌≤◌, IfOk, length, option_map, map, string_bytes};
ghost use Rattle.std.specs.Result.{IsOk};
ghost use Rattle.definitions.specs.Values.{get, as_string, same, string, text_at};
ghost use Rattle.json_doc.specs.Docs.{value, members_value};
ghost use Rattle.json_doc.specs.SmallTexts.{short_text};
ghost use Rattle.keywords.specs.Rows.{row_of};
ghost use Rattle.json_doc.specs.Kinds.{as_boolean, as_elements, as_members};

use crate::members::Members;
use crate::short_text::ShortText;
use crate::whole::Whole;
use keywords::Keyword;
use std::alloc::{AllocError, Global};

/// A JSON value (RFC 8259), whose numbers are whole.
///
/// Contracts see it as the definitions' `Value`, by `value`.
#[cycle(doc)]
#[derive(Debug, Drop)]
pub enum Doc {
    /// `null`
    Null,
    /// `true` or `false`
    Bool(bool),
    /// A number.
    Int(Whole),
    /// A string.
    Str(String),
    /// A string of at most 24 bytes, which stand in the value itself.
    Short(ShortText),
    /// An array.
    List(Vec<Doc>),
    /// An object.
    Dict(Members),
}

// What a value takes in a list.
const _: () = prove!(size_of::<Doc>() == 32);

impl Doc {
    /// The text as a string. The only error is want of memory, which no text of at most 24 bytes takes.
    #[inline(always)]
    pub fn string(alloc: Global, text: &str) -> Result<Doc, AllocError>
        ensures ok { IfOk result (λ d. value d ≡ string text.now) }
        ensures short { length text.now ≤ 24 → IsOk result }
    {
        match ShortText::of(text) {
            Some(short) => Ok(Doc::Short(short)),
            None => Ok(Doc::Str(String::from_str(alloc, text)?)),
        }
    }

    /// The text of a `String`, whose memory is given back where the text has at most 24 bytes.
    pub fn of_string(text: String) -> Doc
        ensures { value result ≡ string (string_bytes text) }
    {
        match ShortText::of(text.as_str()) {
            Some(short) => Doc::Short(short),
            None => Doc::Str(text),
        }
    }

    /// The boolean, if the value is one.
    pub fn as_bool(&self) -> Option<bool>
        ensures { result ≡ as_boolean (value self.now) }
    {
        match self {
            Doc::Bool(boolean) => Some(*boolean),
            _ => None,
        }
    }

    /// The text, if the value is a string.
    pub fn as_str(&self) -> Option<&str>
        ensures { option_map (λ s. s.now) result ≡ as_string (value self.now) }
    {
        match self {
            Doc::Str(text) => Some(text.as_str()),
            Doc::Short(text) => Some(text.as_str()),
            _ => None,
        }
    }

    /// Whether the value is this text.
    #[inline(always)]
    pub fn is_text(&self, text: &str) -> bool
        ensures { result ≡ same (string text.now) (value self.now) }
    {
        match self {
            // Most texts differ in their lengths, which are compared here without a call.
            Doc::Str(own) => own.len() == text.len() && own.as_str() == text,
            Doc::Short(own) => own.len() == text.len() && own.as_str() == text,
            _ => false,
        }
    }

    /// The elements, if the value is an array.
    pub fn as_list(&self) -> Option<&[Doc]>
        ensures { option_map (λ items. map value items.now) result ≡ as_elements (value self.now) }
    {
        match self {
            Doc::List(items) => Some(items.as_slice()),
            _ => None,
        }
    }

    /// The members, if the value is an object.
    pub fn as_dict(&self) -> Option<&Members>
        ensures { option_map (λ m. members_value m.now) result ≡ as_members (value self.now) }
    {
        match self {
            Doc::Dict(members) => Some(members),
            _ => None,
        }
    }

    /// The member of this name, if the value is an object that has one.
    pub fn get(&self, name: &str) -> Option<&Doc>
        ensures { option_map (λ d. value d.now) result ≡ get name.now (value self.now) }
    {
        match self {
            Doc::Dict(members) => members.get(name),
            _ => None,
        }
    }

    /// The member whose name is this short text, if the value is an object that has one. Among few members it is found
    /// without a call.
    #[inline(always)]
    pub fn get_short(&self, name: &ShortText) -> Option<&Doc>
        ensures { option_map (λ d. value d.now) result
            ≡ get (short_text name.now) (value self.now) }
    {
        match self {
            Doc::Dict(members) => members.get_short(name),
            _ => None,
        }
    }

    /// The member of this keyword's name, if the value is an object that has one.
    #[inline(always)]
    pub fn keyword_value(&self, keyword: Keyword) -> Option<&Doc>
        ensures { option_map (λ d. value d.now) result
            ≡ get (row_of keyword).name (value self.now) }
    {
        match self {
            Doc::Dict(members) => members.keyword_value(keyword),
            _ => None,
        }
    }

    /// The member of this keyword's name, if the value is an object that has one. Where the member stands at this
    /// position among the members, it needn't be searched for.
    #[inline(always)]
    pub fn keyword_value_near(&self, keyword: Keyword, position: usize) -> Option<&Doc>
        ensures { option_map (λ d. value d.now) result
            ≡ get (row_of keyword).name (value self.now) }
    {
        match self {
            Doc::Dict(members) => members.keyword_value_near(keyword, position),
            _ => None,
        }
    }

    /// The text of the member of this name, if the value is an object whose member of that name is a string.
    pub fn text_at(&self, name: &str) -> Option<&str>
        ensures { option_map (λ t. t.now) result ≡ text_at name.now (value self.now) }
    {
        self.get(name)?.as_str()
    }
}
