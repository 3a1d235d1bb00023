//! A stream that is written to in large pieces.
ghost use Rattle.std.specs.Prelude.{◌≡◌, ◌≤◌, ◌++◌, [], true, false, length, string_bytes, take};
ghost use Rattle.serving.specs.Transfers.{transferred_bytes};
ghost use Rattle.schemareg.specs.Outputs.{IsWritten, given_text, lost_text};

use network::Transcript;
use serving::ByteWriter;
use std::alloc::Global;

// From how many bytes on text is written.
const ENOUGH: usize = 65_536;

/// A stream, and the text that is to be written to it. Once a write is broken, nothing more is written.
#[derive(Drop)]
pub struct Output<O> {
    pub stream: O,
    pending: String,
    // What is never written, once a write was broken.
    lost: Option<Transcript>,
}

impl<O: ByteWriter> Output<O> {
    /// On this stream, with no text yet.
    pub fn new(alloc: Global, stream: O) -> Output<O>
        ensures { result.stream ≡ stream }
    {
        Output {
            stream,
            pending: String::new(alloc),
            lost: None,
        }
    }

    /// Forgets what was given before, and that a write was broken.
    pub fn begin(&mut self)
        ensures stream { self.new.stream ≡ self.old.stream }
        ensures given { given_text (O.writes self.new.stream) self.new.lost
            (string_bytes self.new.pending)
            ≡ transferred_bytes (O.writes self.old.stream) }
    {
        self.pending.clear();
        self.lost = None;
    }

    /// Takes text, which is written later. Whether memory sufficed.
    pub fn keep(&mut self, text: &str) -> bool
        ensures kept { result ≡ true
            → given_text (O.writes self.new.stream) self.new.lost (string_bytes self.new.pending)
            ≡ given_text (O.writes self.old.stream) self.old.lost (string_bytes self.old.pending)
            ++ text.now }
        ensures lacks { result ≡ false
            → given_text (O.writes self.new.stream) self.new.lost (string_bytes self.new.pending)
            ≡ given_text (O.writes self.old.stream) self.old.lost (string_bytes self.old.pending) }
    {
        self.pending.push_str(text).is_ok()
    }

    /// Whether it is time to write.
    pub fn is_full(&self) -> bool {
        self.pending.len() >= ENOUGH
    }

    /// Writes the text that was taken.
    pub fn flush(&mut self)
        ensures same { given_text (O.writes self.new.stream) self.new.lost
            (string_bytes self.new.pending)
            ≡ given_text (O.writes self.old.stream) self.old.lost (string_bytes self.old.pending) }
        ensures empty { string_bytes self.new.pending ≡ [] }
    {
        pass(&mut self.stream, &mut self.lost, self.pending.as_str());
        self.pending.clear();
    }

    /// Writes the text that was taken, and then this.
    pub fn write(&mut self, text: &str)
        ensures { given_text (O.writes self.new.stream) self.new.lost
            (string_bytes self.new.pending)
            ≡ given_text (O.writes self.old.stream) self.old.lost (string_bytes self.old.pending)
            ++ text.now }
    {
        self.flush();
        pass(&mut self.stream, &mut self.lost, text);
    }

    /// Writes the text that was taken. Whether all that was given is written.
    pub fn finish(&mut self) -> bool
        ensures { IsWritten
            (given_text (O.writes self.old.stream) self.old.lost (string_bytes self.old.pending))
            result (O.writes self.new.stream) }
    {
        self.flush();
        self.lost.is_none()
    }
}

// Writes the text, or notes that it is lost.
fn pass<O: ByteWriter>(stream: &mut O, lost: &mut Option<Transcript>, text: &str)
    ensures { transferred_bytes (O.writes stream.new) ++ lost_text lost.new
        ≡ (transferred_bytes (O.writes stream.old) ++ lost_text lost.old) ++ text.now }
{
    match lost {
        Some(lost) => *lost = lost.moved(0, text.as_bytes()),
        None => *lost = write(stream, text),
    }
}

// Writes the text. What of it is lost, if a write is broken.
fn write<O: ByteWriter>(stream: &mut O, text: &str) -> Option<Transcript>
    ensures { transferred_bytes (O.writes stream.new) ++ lost_text result
        ≡ transferred_bytes (O.writes stream.old) ++ text.now }
{
    let bytes = text.as_bytes();
    let count = write_part(stream, bytes);
    if count == bytes.len() {
        return None;
    }
    Some(Transcript::new().moved(0, &bytes[count..]))
}

// Writes the bytes, by as many writes as it takes, up to a broken one. How many were written.
fn write_part<O: ByteWriter>(stream: &mut O, bytes: &[u8]) -> usize
    ensures fits { result ≤ length bytes.now }
    ensures written { transferred_bytes (O.writes stream.new)
        ≡ transferred_bytes (O.writes stream.old) ++ take result bytes.now }
{
    let mut start = 0;
    while start < bytes.len() {
        match stream.write(&bytes[start..]) {
            Ok(0) => return start,
            Ok(count) => start += count,
            Err(_) => return start,
        }
    }
    start
}
