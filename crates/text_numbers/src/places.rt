//! What texts have at a position.

ghost use Rattle.std.specs.Prelude.{◌≡◌, map};
ghost use Rattle.text_numbers.specs.Places.{place_value, value_of};

/// What the text has at the position: 0 behind its end, and one more than the byte within it.
#[inline(always)]
pub(crate) fn place_value(text: &str, position: usize) -> u16
    ensures { result ≡ place_value text.now position }
{
    match text.as_bytes().get(position) {
        Some(byte) => u16::from(*byte) + 1,
        None => 0,
    }
}

/// What the text of this number has at the position, and 0 where there is no such text.
#[inline(always)]
pub(crate) fn value_of(texts: &[&str], position: usize, number: usize) -> u16
    ensures { result ≡ value_of (map (λ t. t.now) texts.now) position number }
{
    match texts.get(number) {
        Some(text) => place_value(text, position),
        None => 0,
    }
}
