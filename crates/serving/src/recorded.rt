//! Readers and writers of std.

ghost use Rattle.std.specs.Prelude.{◌≡◌, ◌≤◌, ◌∷◌, ◌++◌, [], IfOk, length};
ghost use Rattle.std.specs.Io.{ReadsAtMost, WritesAtMost};
ghost use Rattle.std.specs.Io.KnownBytes.{ReadConsumes, WriteAppends};
ghost use Rattle.serving.specs.Streams.{stream_of, transfers_of};
ghost use Rattle.serving.specs.Transfers.{transfer_of};

use crate::streams::{ByteReader, ByteWriter};
use network::{Broken, Transcript};
use std::io::{self, Read, Write};

/// A reader or a writer of std, as a terminal, a file or a socket, whose transfers proofs know. Each call is one call of
/// the stream below.
#[derive(Drop)]
pub struct Recorded<S> {
    stream: S,
    transcript: Transcript,
}

impl<S> Recorded<S> {
    /// A stream of which nothing was transferred yet.
    pub fn new(stream: S) -> Recorded<S>
        ensures stream { stream_of result ≡ stream }
        ensures transfers { transfers_of result ≡ [] }
    {
        Recorded {
            stream,
            transcript: Transcript::new(),
        }
    }
}

impl<R: Read> Read for Recorded<R> {
    ghost remaining = { λ s. R.remaining (stream_of s) };

    fn read(&mut self, buffer: &mut [u8]) -> io::Result<usize>
        ensures bound { ReadsAtMost result buffer.new }
        ensures bytes { ReadConsumes (R.remaining (stream_of self.old))
            (R.remaining (stream_of self.new)) result buffer.new }
        ensures told { transfers_of self.new
            ≡ transfers_of self.old ++ (transfer_of result buffer.new ∷ []) }
    {
        match self.stream.read(buffer) {
            Ok(count) => {
                self.transcript = self.transcript.moved(0, &buffer[..count]);
                Ok(count)
            }
            Err(error) => {
                self.transcript = self.transcript.failed();
                Err(error)
            }
        }
    }
}

impl<W: Write> Write for Recorded<W> {
    ghost contents = { λ s. W.contents (stream_of s) };

    fn write(&mut self, bytes: &[u8]) -> io::Result<usize>
        ensures bound { WritesAtMost result bytes.now }
        ensures bytes { WriteAppends (W.contents (stream_of self.old))
            (W.contents (stream_of self.new)) result bytes.now }
        ensures told { transfers_of self.new
            ≡ transfers_of self.old ++ (transfer_of result bytes.now ∷ []) }
    {
        match self.stream.write(bytes) {
            Ok(count) => {
                self.transcript = self.transcript.moved(0, &bytes[..count]);
                Ok(count)
            }
            Err(error) => {
                self.transcript = self.transcript.failed();
                Err(error)
            }
        }
    }

    fn flush(&mut self) -> io::Result<()> {
        self.stream.flush()
    }
}

impl<R: Read> ByteReader for Recorded<R> {
    ghost reads = { transfers_of };

    fn read(&mut self, buffer: &mut [u8]) -> Result<usize, Broken>
        ensures fits { IfOk result (λ n. n ≤ length buffer.new) }
        ensures told { transfers_of self.new
            ≡ transfers_of self.old ++ (transfer_of result buffer.new ∷ []) }
        ensures bytes { ReadConsumes (R.remaining (stream_of self.old))
            (R.remaining (stream_of self.new)) result buffer.new }
    {
        match Read::read(self, buffer) {
            Ok(count) => Ok(count),
            Err(_) => Err(Broken),
        }
    }
}

impl<W: Write> ByteWriter for Recorded<W> {
    ghost writes = { transfers_of };

    fn write(&mut self, bytes: &[u8]) -> Result<usize, Broken>
        ensures fits { IfOk result (λ n. n ≤ length bytes.now) }
        ensures told { transfers_of self.new
            ≡ transfers_of self.old ++ (transfer_of result bytes.now ∷ []) }
        ensures bytes { WriteAppends (W.contents (stream_of self.old))
            (W.contents (stream_of self.new)) result bytes.now }
    {
        match Write::write(self, bytes) {
            Ok(count) => Ok(count),
            Err(_) => Err(Broken),
        }
    }
}
