//! Readers and writers over memory.

ghost use Rattle.std.specs.Prelude.{◌≡◌, ◌≤◌, ◌++◌, [], IfOk, OnErr, length, take};
ghost use Rattle.network.specs.Transcripts.{transfers_of};
ghost use Rattle.serving.specs.Transfers.{transferred_bytes};

use crate::streams::{ByteReader, ByteWriter};
use network::{Broken, Transcript};
use std::alloc::Global;

/// What a stream over memory does after its last call that moves bytes.
#[derive(Clone, Copy, Debug, Drop, PartialEq)]
pub enum Pause {
    /// Each further call fails.
    Fails,
    /// Each further call moves no bytes.
    Stops,
}

/// How a stream over memory goes on.
#[derive(Clone, Copy, Debug, Drop, PartialEq)]
pub struct Pace {
    /// How many bytes a call moves at most.
    pub most: usize,
    /// How many calls move bytes.
    pub calls: usize,
    /// What it does then.
    pub pause: Pause,
}

impl Pace {
    /// As many bytes a call as there are.
    pub const WHOLE: Pace = Pace {
        most: usize::MAX,
        calls: usize::MAX,
        pause: Pause::Stops,
    };

    // How many of these bytes the next call moves.
    fn next(&mut self, count: usize) -> Result<usize, Broken>
        ensures { IfOk result (λ n. n ≤ count) }
    {
        if self.calls == 0 {
            return match self.pause {
                Pause::Fails => Err(Broken),
                Pause::Stops => Ok(0),
            };
        }
        self.calls -= 1;
        Ok(if count < self.most { count } else { self.most })
    }
}

/// A reader of bytes in memory.
#[derive(Drop)]
pub struct MemoryReader {
    bytes: Vec<u8>,
    start: usize,
    pace: Pace,
    transcript: Transcript,
    ghost within: { start ≤ length bytes.items },
}

impl MemoryReader {
    ghost use Rattle.serving.specs.Memory.{reads_of};

    /// A reader of these bytes.
    pub fn new(bytes: Vec<u8>, pace: Pace) -> MemoryReader
        ensures { reads_of result ≡ [] }
    {
        MemoryReader {
            bytes,
            start: 0,
            pace,
            transcript: Transcript::new(),
        }
    }
}

impl ByteReader for MemoryReader {
    ghost reads = { λ s. transfers_of s.transcript };

    fn read(&mut self, buffer: &mut [u8]) -> Result<usize, Broken> {
        let left = self.bytes.len() - self.start;
        let count = if buffer.len() < left {
            buffer.len()
        } else {
            left
        };
        match self.pace.next(count) {
            Ok(count) => {
                buffer[..count].copy_from_slice(&self.bytes[self.start..self.start + count]);
                self.start += count;
                self.transcript = self.transcript.moved(0, &buffer[..count]);
                Ok(count)
            }
            Err(broken) => {
                self.transcript = self.transcript.failed();
                Err(broken)
            }
        }
    }
}

/// A writer into memory.
#[derive(Drop)]
pub struct MemoryWriter {
    bytes: Vec<u8>,
    pace: Pace,
    transcript: Transcript,
    ghost told: { bytes.items ≡ transferred_bytes (transfers_of transcript) },
}

impl MemoryWriter {
    ghost use Rattle.serving.specs.Memory.{writes_of};

    /// A writer that took nothing yet.
    pub fn new(alloc: Global, pace: Pace) -> MemoryWriter
        ensures { writes_of result ≡ [] }
    {
        MemoryWriter {
            bytes: Vec::new(alloc),
            pace,
            transcript: Transcript::new(),
        }
    }

    /// The bytes that it took, in order.
    pub fn bytes(&self) -> &[u8]
        ensures { result.now ≡ transferred_bytes (writes_of self.now) }
    {
        &self.bytes
    }
}

impl ByteWriter for MemoryWriter {
    ghost writes = { λ s. transfers_of s.transcript };

    fn write(&mut self, bytes: &[u8]) -> Result<usize, Broken> {
        match keep(&mut self.bytes, &mut self.pace, bytes) {
            Ok(count) => {
                self.transcript = self.transcript.moved(0, &bytes[..count]);
                Ok(count)
            }
            Err(broken) => {
                self.transcript = self.transcript.failed();
                Err(broken)
            }
        }
    }
}

// Keeps some of the first of the bytes; want of memory is a failure.
fn keep(kept: &mut Vec<u8>, pace: &mut Pace, bytes: &[u8]) -> Result<usize, Broken>
    ensures within { IfOk result (λ n. n ≤ length bytes.now) }
    ensures ok { IfOk result (λ n. kept.new.items ≡ kept.old.items ++ take n bytes.now) }
    ensures err { OnErr result (kept.new.items ≡ kept.old.items) }
{
    let count = pace.next(bytes.len())?;
    match kept.extend_from_slice(&bytes[..count]) {
        Ok(()) => Ok(count),
        Err(_) => Err(Broken),
    }
}
