//! The values of a JSON text in its order, each with where it begins.

ghost use Rattle.std.specs.Prelude.{◌≡◌, ◌<◌, IfErr, IfSome};

use faults::Fault;
use json::{Reader, Scratch, Token};
use std::alloc::{AllocError, Global};

/// A value of the text: an array's elements and an object's members follow it.
#[derive(Clone, Copy, Debug, Drop)]
struct Node<'a> {
    // Of a member its name.
    name: &'a str,
    start: usize,
    // Where the token behind the value begins.
    next: usize,
    // The number of the first node that doesn't stand inside.
    past: usize,
    is_array: bool,
}

/// Where a value begins, and where the token behind it does.
#[derive(Clone, Copy, Debug, Drop)]
pub(crate) struct Extent {
    pub(crate) start: usize,
    pub(crate) next: usize,
}

// An element that was found: of which array, at which index, and its number.
#[derive(Clone, Copy, Debug, Drop)]
struct Element {
    array: usize,
    index: usize,
    number: usize,
}

/// The values of a text by number, from 0 for the text's own.
#[derive(Drop)]
pub(crate) struct Nodes<'a> {
    nodes: Vec<Node<'a>>,
    // The last element that was asked for: the next one of its array is looked for from there.
    last: Option<Element>,
}

impl<'a> Nodes<'a> {
    /// The values of the text, up to where it is no JSON. The only error is want of memory.
    pub(crate) fn read(
        alloc: Global,
        text: &'a str,
        scratch: &'a mut Scratch,
    ) -> Result<Nodes<'a>, Fault>
        ensures { IfErr result (λ f. f ≡ Fault.NoRoom) }
    {
        let mut reader = Reader::new(text, scratch)?;
        let mut gathering = Gathering::new(alloc);
        let mut start = reader.offset();
        while let Some(token) = reader.next() {
            let next = reader.offset();
            gathering.take(token, start, next)?;
            start = next;
        }
        Ok(Nodes {
            nodes: gathering.nodes,
            last: None,
        })
    }

    /// Where the value stands that a pointer's tokens lead to.
    pub(crate) fn locate(&mut self, tokens: &[String]) -> Option<Extent> {
        let mut number = 0;
        for token in tokens {
            number = self.child(number, token.as_str())?;
        }
        let node = self.nodes.get(number)?;
        Some(Extent {
            start: node.start,
            next: node.next,
        })
    }

    // The number of the value that a token of a pointer leads to from here.
    fn child(&mut self, number: usize, token: &str) -> Option<usize> {
        let node = *self.nodes.get(number)?;
        if node.is_array {
            self.element(number, node.past, token.parse().ok()?)
        } else {
            self.member(number + 1, node.past, token)
        }
    }

    // The element at this index of an array that ends below a number. Indexes that grow take one walk together.
    fn element(&mut self, array: usize, past: usize, index: usize) -> Option<usize> {
        let known = self.element_before(array, index);
        let mut number = known.number;
        for _ in known.index..index {
            number = self.after(number, past)?;
        }
        if number >= past {
            return None;
        }
        self.last = Some(Element {
            array,
            index,
            number,
        });
        Some(number)
    }

    // The last element that was asked for, where it is one of this array up to this index, or else the array's first.
    fn element_before(&self, array: usize, index: usize) -> Element {
        match self.last {
            Some(last) if last.array == array && last.index <= index => last,
            _ => Element {
                array,
                index: 0,
                number: array.saturating_add(1),
            },
        }
    }

    // The last member of this name, of those from one number up to another.
    fn member(&self, first: usize, past: usize, name: &str) -> Option<usize> {
        let mut found = None;
        let mut at = first;
        while at < past {
            if self.nodes.get(at)?.name == name {
                found = Some(at);
            }
            at = self.after(at, past)?;
        }
        found
    }

    // The number behind a value and all inside it, where it is one of those below the other number.
    fn after(&self, at: usize, past: usize) -> Option<usize>
        ensures { IfSome result (λ n. at < n) }
    {
        let next = self.nodes.get(at)?.past;
        if at < past && at < next {
            Some(next)
        } else {
            None
        }
    }
}

// The values up to a token, and those of them that are open.
#[derive(Drop)]
struct Gathering<'a> {
    nodes: Vec<Node<'a>>,
    open: Vec<usize>,
    name: &'a str,
}

impl<'a> Gathering<'a> {
    fn new(alloc: Global) -> Gathering<'a> {
        Gathering {
            nodes: Vec::new(alloc),
            open: Vec::new(alloc),
            name: "",
        }
    }

    // Takes the next token, and where it and the one behind it begin.
    fn take(&mut self, token: Token<'a>, start: usize, next: usize) -> Result<(), AllocError> {
        match token {
            Token::Key(name) => self.name = name,
            Token::BeginArray => self.begin(start, next, true)?,
            Token::BeginObject => self.begin(start, next, false)?,
            Token::EndArray | Token::EndObject => self.end(next),
            Token::String(_) | Token::Number(_) | Token::Bool(_) | Token::Null => {
                self.push(start, next, false)?
            }
            Token::Bad => {}
        }
        Ok(())
    }

    fn begin(&mut self, start: usize, next: usize, is_array: bool) -> Result<(), AllocError> {
        self.open.push(self.nodes.len())?;
        self.push(start, next, is_array)
    }

    fn push(&mut self, start: usize, next: usize, is_array: bool) -> Result<(), AllocError> {
        let node = Node {
            name: self.name,
            start,
            next,
            past: self.nodes.len() + 1,
            is_array,
        };
        self.name = "";
        self.nodes.push(node)?;
        Ok(())
    }

    fn end(&mut self, next: usize) {
        let past = self.nodes.len();
        let Some(number) = self.open.pop() else {
            return;
        };
        if let Some(node) = self.nodes.get_mut(number) {
            node.next = next;
            node.past = past;
        }
    }
}
