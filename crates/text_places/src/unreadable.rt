//! Where a text stops to be JSON.

ghost use Rattle.std.specs.Prelude.{◌≡◌, ◌↔◌, ◌≤◌, IfOk, IfErr, IfSome, IsSome, length, is_err, IsTrue};
ghost use Rattle.definitions.specs.Texts.{parsed_value};
ghost use Rattle.text_places.specs.Located.{IsPositionIn};

use crate::position::{Position, Positions};
use faults::Fault;
use json::{Reader, Scratch, Token};
use json_doc::read;
use std::alloc::{AllocError, Global};

// How deep arrays and objects may nest.
const MAX_NESTING: usize = 127;

/// Where reading a text fails, exactly where [`json_doc::read`] refuses it: at the first byte that is no UTF-8, at the
/// token that can't stand there or nests too deep, or at the text's end, if it ends too early; and in a text that is JSON,
/// at the first number that is not a whole number of 64 bits. The only error is want of memory.
pub fn first_fault(alloc: Global, bytes: &[u8]) -> Result<Option<Position>, Fault>
    ensures refused { IfOk result (λ p. IsSome p ↔ IsTrue (is_err (parsed_value bytes.now))) }
    ensures position { IfOk result (λ p. IfSome p (IsPositionIn bytes.now)) }
    ensures err { IfErr result (λ f. f ≡ Fault.NoRoom) }
{
    match read(alloc, bytes) {
        Ok(_) => Ok(None),
        Err(Fault::NoRoom) => Err(Fault::NoRoom),
        Err(_) => {
            let offset = fault_offset(alloc, bytes)?;
            Ok(Some(Positions::of(bytes).at(offset)))
        }
    }
}

fn fault_offset(alloc: Global, bytes: &[u8]) -> Result<usize, Fault>
    ensures within { IfOk result (λ offset. offset ≤ length bytes.now) }
    ensures err { IfErr result (λ f. f ≡ Fault.NoRoom) }
{
    let offset = match str::from_utf8(bytes) {
        Ok(text) => token_fault(alloc, text)?,
        Err(error) => error.valid_up_to(),
    };
    Ok(offset.min(bytes.len()))
}

// Where the first token begins that can't stand there.
fn token_fault(alloc: Global, text: &str) -> Result<usize, AllocError> {
    let mut scratch = Scratch::new(alloc);
    let mut reader = Reader::new(text, &mut scratch)?;
    let mut nesting = Nesting::new(alloc);
    let mut number = None;
    let mut start = reader.offset();
    while let Some(token) = reader.next() {
        if !nesting.take(&token)? {
            return Ok(start);
        }
        if number.is_none() && !is_whole(alloc, &token) {
            number = Some(start);
        }
        start = reader.offset();
    }
    if nesting.is_ended {
        return Ok(number.unwrap_or(start));
    }
    Ok(text.len())
}

// Whether the token is no number, or a whole number of 64 bits.
fn is_whole(alloc: Global, token: &Token<'_>) -> bool {
    match token {
        Token::Number(text) => read(alloc, text.as_bytes()).is_ok(),
        _ => true,
    }
}

// What is open.
#[derive(Drop)]
struct Nesting {
    // For each array and object whether it is an object.
    open: Vec<bool>,
    is_after_key: bool,
    is_ended: bool,
}

impl Nesting {
    fn new(alloc: Global) -> Nesting {
        Nesting {
            open: Vec::new(alloc),
            is_after_key: false,
            is_ended: false,
        }
    }

    // Takes the token, where it may stand there.
    fn take(&mut self, token: &Token<'_>) -> Result<bool, AllocError> {
        match token {
            Token::Key(_) => Ok(self.take_key()),
            Token::BeginArray => self.begin(false),
            Token::BeginObject => self.begin(true),
            Token::EndArray => Ok(self.end(false)),
            Token::EndObject => Ok(self.end(true)),
            Token::String(_) | Token::Number(_) | Token::Bool(_) | Token::Null => {
                Ok(self.take_value())
            }
            Token::Bad => Ok(false),
        }
    }

    fn is_in_object(&self) -> bool {
        matches!(self.open.last(), Some(true))
    }

    fn take_key(&mut self) -> bool {
        let fits = self.is_in_object() && !self.is_after_key;
        self.is_after_key = true;
        fits
    }

    fn take_value(&mut self) -> bool {
        let fits = !self.is_ended && self.is_in_object() == self.is_after_key;
        self.is_after_key = false;
        self.is_ended = self.open.is_empty();
        fits
    }

    fn begin(&mut self, is_object: bool) -> Result<bool, AllocError> {
        let fits = self.take_value() && self.open.len() < MAX_NESTING;
        self.is_ended = false;
        self.open.push(is_object)?;
        Ok(fits)
    }

    fn end(&mut self, is_object: bool) -> bool {
        let fits = self.open.pop() == Some(is_object) && !self.is_after_key;
        self.is_ended = self.open.is_empty();
        fits
    }
}
