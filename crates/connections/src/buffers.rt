//! The front of a connection's bytes.
ghost use Rattle.std.specs.Prelude.{◌≡◌, ◌≤◌, [], length, take, drop};
ghost use Rattle.connections.specs.Room.{KeepsLittle};
ghost use Rattle.http_definitions.specs.Streams.{without_line_ends, is_line_end};

/// How much room stays with a connection that holds nothing, in bytes.
const MOST_SPARE: usize = 4096;

// Whether the byte is a part of a line end.
fn is_line_end(byte: u8) -> bool
    ensures { result ≡ is_line_end byte }
{
    byte == b'\r' || byte == b'\n'
}

/// How many bytes of line ends stand at the front.
pub fn line_ends(bytes: &[u8]) -> usize
    ensures within { result ≤ length bytes.now }
    ensures rest { drop result bytes.now ≡ without_line_ends bytes.now }
    ensures front { without_line_ends (take result bytes.now) ≡ [] }
{
    let mut count = 0;
    while count < bytes.len() && is_line_end(bytes[count]) {
        count += 1;
    }
    count
}

/// The bytes from a position on.
pub fn behind(bytes: &[u8], position: usize) -> &[u8]
    requires { position ≤ length bytes.now }
    ensures { result.now ≡ drop position bytes.now }
{
    &bytes[position..]
}

/// Drops the bytes up to a position.
#[tactic(auto, using(crate::proofs::Dropped::moved_to_front))]
pub fn drop_front(bytes: &mut Vec<u8>, position: usize)
    requires { position ≤ length bytes.old.items }
    ensures { bytes.new.items ≡ drop position bytes.old.items }
{
    if position > 0 {
        let rest = bytes.len() - position;
        bytes.copy_within(position.., 0);
        bytes.truncate(rest);
    }
}

/// Gives back the room that the bytes don't need. Where there are none, at most `MOST_SPARE` stays, for the next piece.
pub fn give_back(bytes: &mut Vec<u8>)
    ensures same { bytes.new.items ≡ bytes.old.items }
    ensures little { KeepsLittle bytes.new }
{
    if bytes.is_empty() && bytes.capacity() > MOST_SPARE {
        bytes.shrink_to_fit();
    } else if bytes.len() < bytes.capacity() / 4 {
        bytes.shrink_to(MOST_SPARE);
    }
}
