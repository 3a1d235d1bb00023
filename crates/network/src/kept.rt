//! What an open connection keeps in memory.

ghost use Rattle.std.specs.Prelude.{◌≡◌, ◌≤◌, ◌+◌, [], length, drop};

use std::alloc::Global;
use std::mem;

/// How much memory for sent bytes stays with a connection, in bytes.
const MOST_SPARE: usize = 4096;

/// What an open connection keeps in memory: bytes of which a first part was sent, and so many of requests that aren't
/// whole.
#[derive(Drop)]
pub struct Kept {
    pub bytes: Vec<u8>,
    pub start: usize,
    pub held: usize,
    ghost within: { start ≤ length bytes.items },
}

impl Kept {
    ghost use Rattle.network.specs.Sizes.{size_of};
    ghost use Rattle.network.specs.Outboxes.{rest_of};

    /// Nothing. This takes no memory.
    pub fn nothing(alloc: Global) -> Kept
        ensures rest { rest_of result ≡ [] }
        ensures size { size_of result ≡ 0 }
    {
        Kept::all(Vec::new(alloc), 0)
    }

    /// Bytes of which none was sent.
    pub fn all(bytes: Vec<u8>, held: usize) -> Kept
        ensures rest { rest_of result ≡ bytes.items }
        ensures size { size_of result ≡ length bytes.items + held }
    {
        Kept {
            bytes,
            start: 0,
            held,
        }
    }

    /// The bytes that are still to be sent.
    pub fn rest(&self) -> &[u8]
        ensures { result.now ≡ rest_of self.now }
    {
        &self.bytes[self.start..]
    }

    /// How many bytes it keeps.
    pub fn size(&self) -> u128
        ensures { result ≡ size_of self.now }
    {
        self.bytes.len() as u128 + self.held as u128
    }

    /// Some of the first of them were sent. Once all are, their memory is given back where it is large, and else stays for
    /// the next.
    pub fn advance(&mut self, alloc: Global, count: usize)
        requires { count ≤ length (rest_of self.old) }
        ensures { rest_of self.new ≡ drop count (rest_of self.old) }
    {
        self.start += count;
        if self.start == self.bytes.len() {
            self.start = 0;
            self.bytes.clear();
            if self.bytes.capacity() > MOST_SPARE {
                self.bytes = Vec::new(alloc);
            }
        }
    }

    /// The memory that stayed, where all bytes were sent.
    pub fn take_spare(&mut self, alloc: Global) -> Vec<u8>
        requires { rest_of self.old ≡ [] }
        ensures { rest_of self.new ≡ [] }
    {
        self.start = 0;
        mem::replace(&mut self.bytes, Vec::new(alloc))
    }
}
