//! What a unit says.

ghost use Rattle.std.specs.Prelude.{◌≡◌, ◌++◌, IfOk, IfSome, OnOk};
ghost use Rattle.definitions.specs.Texts.{text};
ghost use Rattle.definitions.specs.Values.{string};
ghost use Rattle.json_doc.specs.Tokens.{value_tokens};
ghost use Rattle.basic_output.specs.Parts.{formed_text, message_text};
ghost use Rattle.basic_output.specs.Pieces.{index_tokens, name_tokens};
ghost use Rattle.basic_output.specs.Sayings.{says_value};
ghost use Rattle.basic_output.specs.declared.says.Says.TheVariants as says;

use super::escaping::{are_unescaped, writer_over, written_by};
use crate::memory::is_kept;
use crate::name_lists::NameListCache;
use crate::says::Says;
use json::Writer;
use json_doc::{Name, write_doc};
use keywords::Keyword;
use std::alloc::{AllocError, Global};

/// What a unit says, and how.
#[derive(Clone, Copy)]
pub(super) struct Message<'s> {
    pub(super) form: Form,
    pub(super) text: &'s str,
}

/// How a text gives what a unit says.
#[derive(Clone, Copy, Debug, PartialEq, Eq)]
pub(super) enum Form {
    /// It is the name of a keyword, which is not met.
    NotMet,
    /// It is a string that stands as it is.
    Unescaped,
    /// It is what is written.
    Written,
}

/// Where what a unit says is written, if it isn't copied from elsewhere. Nothing of it shows in a unit that comes later.
#[derive(Debug, Drop)]
pub(crate) struct MessageBuffer {
    text: String,
    // Lists of names that were written before.
    lists: NameListCache,
}

impl MessageBuffer {
    /// Nothing yet. This takes no memory; what is written takes it from `alloc`.
    pub(crate) fn new(alloc: Global) -> MessageBuffer {
        MessageBuffer {
            text: String::new(alloc),
            lists: NameListCache::new(alloc),
        }
    }

    /// Whether its memory is kept for later units.
    pub(crate) fn is_kept(&self) -> bool {
        is_kept(self.text.capacity())
    }

    /// What the unit says, which is written where it doesn't stand there as it is. The only error is want of memory.
    #[inline(always)]
    pub(super) fn message<'s>(&'s mut self, says: Says<'s, 's>) -> Result<Message<'s>, AllocError>
        ensures { IfOk result (λ message. message_text message ≡ text (says_value says.entry)) }
    {
        match known_message(says) {
            Some(message) => Ok(message),
            None => Ok(message_as(Form::Written, self.written(says)?)),
        }
    }

    // The text of it, which is kept of some lists of names.
    #[inline(always)]
    fn written<'s>(&'s mut self, says: Says<'s, 's>) -> Result<&'s str, AllocError>
        ensures { IfOk result (λ written. written.now ≡ text (says_value says.entry)) }
    {
        if let Says::Names(names) = says {
            if let Some(place) = self.lists.find(names) {
                return Ok(self.lists.text(place));
            }
        }
        self.write(says)
    }

    // Writes its text by the writer of `json`, and keeps that of a short list of names.
    #[inline(never)]
    fn write<'s>(&'s mut self, says: Says<'s, 's>) -> Result<&'s str, AllocError>
        ensures { IfOk result (λ written. written.now ≡ text (says_value says.entry)) }
    {
        let alloc = *self.text.allocator();
        let mut out = writer_over(&mut self.text);
        write_says(alloc, says, &mut out)?;
        self.text = written_by(out);
        if let Says::Names(names) = says {
            self.lists.keep(names, self.text.as_str())?;
        }
        Ok(self.text.as_str())
    }
}

// What a unit says, where its text is at hand.
#[inline(always)]
fn known_message<'s>(says: Says<'s, 's>) -> Option<Message<'s>>
    ensures { IfSome result (λ message. message_text message ≡ text (says_value says.entry)) }
{
    match says {
        Says::NotMet(keyword) => Some(not_met(keyword)),
        Says::True => Some(message_as(Form::Written, "true")),
        Says::Names(names) if names.is_empty() => Some(message_as(Form::Written, "[]")),
        Says::Value(doc) => unescaped_string(doc.as_str()?),
        _ => None,
    }
}

// That the keyword isn't met, whose name stands in a string as it is.
#[tactic(auto, using(crate::proofs::UnitLaws::message_not_met, crate::proofs::KeywordNames::name_is_unescaped))]
fn not_met<'s>(keyword: Keyword) -> Message<'s>
    ensures { message_text result ≡ text (says_value (says.NotMet keyword)) }
{
    message_as(Form::NotMet, keyword.name())
}

// The text, where it stands in a string as it is.
fn unescaped_string(message: &str) -> Option<Message<'_>>
    ensures { IfSome result (λ s. message_text s ≡ text (string message.now)) }
{
    are_unescaped(message.as_bytes()).then_some(message_as(Form::Unescaped, message))
}

// What this text gives so.
#[inline(always)]
fn message_as(form: Form, text: &str) -> Message<'_>
    ensures { message_text result ≡ formed_text form text.now }
{
    Message { form, text }
}

// Writes what the unit says.
fn write_says(alloc: Global, says: Says<'_, '_>, out: &mut Writer) -> Result<(), AllocError>
    ensures tokens { OnOk result
        (out.new.tokens ≡ out.old.tokens ++ value_tokens (says_value says.entry)) }
    ensures before { out.new.before ≡ out.old.before }
{
    match says {
        Says::NotMet(keyword) => {
            let mut unescaped_message = String::from_str(alloc, keyword.name())?;
            unescaped_message.push_str(" is not met")?;
            out.string(unescaped_message.as_str())
        }
        Says::NotAllowed => out.string("no value is allowed"),
        Says::True => out.boolean(true),
        Says::Index(index) => out.u64(index as u64),
        Says::Names(names) => {
            out.begin_array()?;
            write_names(names, out)
        }
        Says::Indexes(indexes) => {
            out.begin_array()?;
            write_indexes(indexes, out)
        }
        Says::Value(doc) => write_doc(doc, out),
    }
}

// The names of a list, and its end.
fn write_names(names: &[Name<'_>], out: &mut Writer) -> Result<(), AllocError>
    ensures tokens { OnOk result (out.new.tokens ≡ out.old.tokens ++ name_tokens names.now) }
    ensures before { out.new.before ≡ out.old.before }
{
    for name in names {
        out.string(name.as_str())?;
    }
    out.end_array()
}

// The indexes of a list, and its end.
fn write_indexes(indexes: &[usize], out: &mut Writer) -> Result<(), AllocError>
    ensures tokens { OnOk result (out.new.tokens ≡ out.old.tokens ++ index_tokens indexes.now) }
    ensures before { out.new.before ≡ out.old.before }
{
    for index in indexes {
        out.u64(*index as u64)?;
    }
    out.end_array()
}
