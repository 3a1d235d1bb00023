//! The texts of steps, one behind the other, as they stand in the output.

ghost use Rattle.std.specs.Prelude.{◌≡◌, ◌+◌, ◌≤◌, ◌<◌, ◌∷◌, ◌++◌, [], List, true, drop, get_or, length, IfOk, OnOk};
ghost use Rattle.std.specs.List.{list_all};
ghost use Rattle.locations.specs.Steps.{token, tokens};
ghost use Rattle.locations.specs.declared.step.Step.{Step};
ghost use Rattle.basic_output.specs.Buffers.{buffer_text};
ghost use Rattle.basic_output.specs.Notations.{IsPushed, escaped_text, stands_in_pointer};
ghost use Rattle.basic_output.specs.Pieces.{is_plain};
ghost use Rattle.basic_output.specs.declared.unit_text.step_texts.Notation.TheVariants as notation;

use super::buffer::TextBuffer;
use super::escaping::push_escaped;
use crate::memory::is_kept;
use locations::{Step, push_fragment, push_pointer};
use std::alloc::{AllocError, Global};

// Of each byte whether it stands as it is: `0` in a pointer, in its fragment and in a string, `1` in a pointer, `3` in none.
static MARKS: [u8; 256] = *b"\
    11111111111111111111111111111111\
    11110111111110030000000000111111\
    10000000000000000000000000011110\
    10000000000000000000000000011131\
    11111111111111111111111111111111\
    11111111111111111111111111111111\
    11111111111111111111111111111111\
    11111111111111111111111111111111";

/// How steps are written.
#[derive(Clone, Copy, Debug)]
pub(crate) enum Notation {
    /// As a pointer (RFC 6901, section 3).
    Pointer,
    /// As a pointer in a URI's fragment (RFC 6901, section 6).
    Fragment,
}

/// The text of steps. Where a token isn't plain, it is written apart first, and then with its escapes.
#[derive(Debug, Drop)]
struct StepBuffer {
    text: TextBuffer,
    token: String,
    escaped: String,
}

/// The texts of the first steps of a list, with the escapes of a string of JSON: what is written of a step stays while later ones
/// come and go.
///
/// Contracts see of which steps, by `AreStepTexts`.
#[derive(Debug, Drop)]
pub struct StepTexts {
    buffer: StepBuffer,
    // Where the text of each step starts.
    starts: Vec<usize>,
    /// From this step on all are plain: they are written in the same way in a pointer and in its fragment.
    pub(crate) plain_from: usize,
}

impl StepTexts {
    ghost use Rattle.basic_output.specs.StepTexts.{AreSomeTexts, AreStepTexts};

    /// Of no steps. This takes no memory; what is written takes it from `alloc`.
    pub fn new(alloc: Global) -> StepTexts
        ensures { (n : Notation) (ss : List Step) → AreStepTexts n result ss }
    {
        StepTexts {
            buffer: StepBuffer {
                text: TextBuffer::new(alloc),
                token: String::new(alloc),
                escaped: String::new(alloc),
            },
            starts: Vec::new(alloc),
            plain_from: 0,
        }
    }

    /// Of no steps any more.
    pub(crate) fn clear(&mut self)
        ensures { (n : Notation) (ss : List Step) → AreStepTexts n self.new ss }
    {
        self.buffer.text.truncate(0);
        self.starts.clear();
        self.plain_from = 0;
    }

    /// Whether its memory is kept for other steps.
    pub(crate) fn is_kept(&self) -> bool {
        is_kept(self.buffer.text.bytes.len())
    }

    /// How many steps are written.
    pub(crate) fn len(&self) -> usize
        ensures { result ≡ length self.now.starts.items }
    {
        self.starts.len()
    }

    /// The text of all that are written.
    pub(crate) fn as_str(&self) -> &str
        ensures { result.now ≡ buffer_text self.now.buffer.text }
    {
        self.buffer.text.as_str()
    }

    /// Writes the steps that are missing. The only error is want of memory, and then none is written.
    #[inline(never)]
    pub(crate) fn write(&mut self, notation: Notation, steps: &[Step<'_>]) -> Result<(), AllocError>
        requires { AreStepTexts notation self.old steps.now }
        ensures texts { AreStepTexts notation self.new steps.now }
        ensures all { OnOk result (length self.new.starts.items ≡ length steps.now) }
    {
        while self.starts.len() < steps.len() {
            let written = self.starts.len();
            self.push(notation, steps[written])?;
        }
        Ok(())
    }

    // Writes one step more.
    fn push(&mut self, notation: Notation, step: Step<'_>) -> Result<(), AllocError>
        ensures texts { (ss : List Step) → length self.old.starts.items < length ss
            → step.entry ≡ get_or ss (length self.old.starts.items) step.entry
            → AreStepTexts notation self.old ss → AreStepTexts notation self.new ss }
        ensures one { OnOk result
            (length self.new.starts.items ≡ length self.old.starts.items + 1) }
    {
        self.starts.push(self.buffer.text.len())?;
        match self.buffer.push(notation, step) {
            Ok(true) => Ok(()),
            Ok(false) => {
                self.plain_from = self.starts.len();
                Ok(())
            }
            Err(error) => {
                self.clear();
                Err(error)
            }
        }
    }

    /// The texts of so many steps at most stay.
    pub(crate) fn truncate(&mut self, len: usize)
        requires { AreSomeTexts self.old }
        ensures texts { (n : Notation) (ss : List Step)
            → AreStepTexts n self.old ss → AreStepTexts n self.new ss }
        ensures fewer { length self.new.starts.items ≤ len }
    {
        if len < self.starts.len() {
            self.buffer.text.truncate(self.starts[len]);
            self.starts.truncate(len);
            self.plain_from = self.plain_from.min(len);
        }
    }

    /// The text behind so many steps.
    #[inline(always)]
    pub(crate) fn behind(&self, len: usize) -> &str
        requires { AreSomeTexts self.now }
        ensures { (n : Notation) (ss : List Step) → AreStepTexts n self.now ss
            → length self.now.starts.items ≡ length ss
            → result.now ≡ escaped_text n (drop len (tokens ss)) }
    {
        if len < self.starts.len() {
            &self.as_str()[self.starts[len]..]
        } else {
            ""
        }
    }
}

impl StepBuffer {
    // Appends the text of a step: whether it is plain, as indexes and the names of keywords are.
    #[inline(always)]
    #[tactic(auto, using(crate::proofs::PlainLaws::plain_pushed, crate::proofs::PlainLaws::index_is_plain, crate::proofs::KeywordNames::name_is_plain))]
    fn push(&mut self, notation: Notation, step: Step<'_>) -> Result<bool, AllocError>
        ensures { IfOk result (λ plain. IsPushed notation (token step.entry) plain
            (buffer_text self.old.text) (buffer_text self.new.text)) }
    {
        match step {
            Step::Name(name) => self.push_name(notation, name),
            Step::Index(index) => {
                self.text
                    .push_prefixed("/", itoa::Buffer::new().format(index))?;
                Ok(true)
            }
            Step::Keyword(keyword) => {
                self.text.push_prefixed("/", keyword.name())?;
                Ok(true)
            }
        }
    }

    // Appends the text of a member's name: whether it is plain.
    #[inline(always)]
    fn push_name(&mut self, notation: Notation, name: &str) -> Result<bool, AllocError>
        ensures { IfOk result (λ plain. IsPushed notation name.now plain
            (buffer_text self.old.text) (buffer_text self.new.text)) }
    {
        let mark = mark_of(name.as_bytes());
        if mark == b'0' {
            self.text.push_prefixed("/", name)?;
            return Ok(true);
        }
        self.push_other_name(notation, name, mark)?;
        Ok(false)
    }

    // Appends the text of a name that isn't plain, whose mark this is. It is called apart, since few are such.
    #[inline(never)]
    fn push_other_name(
        &mut self,
        notation: Notation,
        name: &str,
        mark: u8,
    ) -> Result<(), AllocError>
        requires { mark < 51 → list_all stands_in_pointer name.now ≡ true }
        ensures { OnOk result (buffer_text self.new.text
            ≡ buffer_text self.old.text ++ escaped_text notation (name.now ∷ [])) }
    {
        self.token.clear();
        match notation {
            Notation::Pointer if mark < b'3' => {
                return push_escaped(&mut self.text, &mut self.escaped, "/", name);
            }
            Notation::Pointer => push_pointer(&mut self.token, &[Step::Name(name)])?,
            Notation::Fragment => push_fragment(&mut self.token, &[Step::Name(name)])?,
        }
        push_escaped(&mut self.text, &mut self.escaped, "", self.token.as_str())
    }
}

// The marks of all bytes in one: a `3` makes it one, and else a `1`.
fn mark_of(bytes: &[u8]) -> u8
    ensures plain { result ≤ 48 → list_all is_plain bytes.now ≡ true }
    ensures pointer { result < 51 → list_all stands_in_pointer bytes.now ≡ true }
{
    let mut mark = b'0';
    for byte in bytes {
        mark |= mark_at(*byte);
    }
    mark
}

fn mark_at(byte: u8) -> u8
    ensures plain { result ≤ 48 → is_plain byte ≡ true }
    ensures pointer { result < 51 → stands_in_pointer byte ≡ true }
{
    MARKS[byte as usize]
}
