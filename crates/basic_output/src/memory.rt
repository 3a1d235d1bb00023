//! Memory that is kept from one text to the next.

use crate::tuning::{ALWAYS_KEPT, MOST_KEPT};

/// Whether the memory of a text, of so many bytes, is kept for the next one: it doesn't stay large because of one large text.
pub(crate) fn is_kept(bytes: usize) -> bool {
    bytes <= ALWAYS_KEPT
}

/// Whether the memory of a text is kept for the next one: always up to 1,048,576 bytes, and up to 16,777,216 where the last text
/// took a quarter of it or more, since to make and to fill it anew takes longer than such a text.
pub(crate) fn is_still_kept(bytes: usize, taken: usize) -> bool {
    is_kept(bytes) || (bytes <= MOST_KEPT && taken >= bytes / 4)
}
