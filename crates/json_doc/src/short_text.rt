//! Short texts, which stand in the value itself.

ghost use Rattle.std.specs.Prelude.{◌≡◌, ◌≤◌, ◌<◌, ◌+◌, IsTrue, length, take, true};
ghost use Rattle.std.specs.Option.{MatchOption};
ghost use Rattle.std.specs.Str.{is_utf8};
ghost use Rattle.json_doc.specs.Words.{word_at};

use std::str;

// How many bytes stand in the value itself.
const SHORT: usize = 24;

/// A text of at most 24 bytes, which stand in the value itself.
///
/// Contracts see its bytes, by `short_text`.
#[derive(Clone, Copy, Debug)]
pub struct ShortText {
    len: u32,
    bytes: [u8; SHORT],
    ghost within: { len ≤ 24 },
    ghost utf8: { is_utf8 (take len bytes) ≡ true },
}

impl ShortText {
    ghost use Rattle.json_doc.specs.SmallTexts.{short_text};

    /// The text, if it has at most 24 bytes.
    #[inline(always)]
    pub fn of(text: &str) -> Option<ShortText>
        ensures { MatchOption result (24 < length text.now) (λ s. short_text s ≡ text.now) }
    {
        let len = text.len();
        if len > SHORT {
            return None;
        }
        Some(ShortText {
            len: len as u32,
            bytes: padded(text),
        })
    }

    /// How many bytes it has.
    #[inline(always)]
    pub fn len(&self) -> usize
        ensures { result ≡ length (short_text self.now) }
    {
        self.len as usize
    }

    /// Whether it surely is the other text.
    #[inline(always)]
    pub(crate) fn is_same(&self, other: &ShortText) -> bool
        ensures { IsTrue result → short_text self.now ≡ short_text other.now }
    {
        self.is_padded(other.len, &other.bytes)
    }

    /// Whether it surely is the text of so many of these bytes, where zeros stand behind them: all bytes are compared at once.
    #[inline(always)]
    pub fn is_padded(&self, len: u32, padded: &[u8; SHORT]) -> bool
        ensures { IsTrue result → short_text self.now ≡ take len padded.now }
    {
        self.len == len && are_same(&self.bytes, padded)
    }

    /// The text.
    #[inline(always)]
    pub fn as_str(&self) -> &str
        ensures { result.now ≡ short_text self.now }
    {
        unsafe { str::from_utf8_unchecked(&self.bytes[..self.len as usize]) }
    }
}

// The bytes of the text, and zeros.
#[inline(always)]
fn padded(text: &str) -> [u8; SHORT]
    requires { length text.now ≤ 24 }
    ensures { take (length text.now) result ≡ text.now }
{
    let mut bytes = [0; SHORT];
    bytes[..text.len()].copy_from_slice(text.as_bytes());
    bytes
}

// Whether the bytes surely are the same: eight are compared at once.
#[inline(always)]
fn are_same(first: &[u8; SHORT], second: &[u8; SHORT]) -> bool
    ensures { IsTrue result → first.now ≡ second.now }
{
    if word_at(first, 0) != word_at(second, 0) {
        return false;
    }
    if word_at(first, 8) != word_at(second, 8) {
        return false;
    }
    word_at(first, 16) == word_at(second, 16)
}

// Eight of the bytes, from there on, as a number.
#[inline(always)]
fn word_at(bytes: &[u8; SHORT], start: usize) -> u64
    requires { start + 8 ≤ 24 }
    ensures { result ≡ word_at start bytes.now }
{
    u64::from_le_bytes([
        bytes[start],
        bytes[start + 1],
        bytes[start + 2],
        bytes[start + 3],
        bytes[start + 4],
        bytes[start + 5],
        bytes[start + 6],
        bytes[start + 7],
    ])
}
