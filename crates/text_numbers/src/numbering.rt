//! The numbers of texts.

ghost use Rattle.std.specs.Prelude.{◌≡◌, true, IfOk, IfSome, map, string_bytes};
ghost use Rattle.text_numbers.specs.TextNumbers.{AreNumbers, is_only, text_number};

use crate::building::{all_numbers, built};
use crate::tree::Tree;
use std::alloc::{AllocError, Global};

/// The numbers of texts, told by the bytes in which the texts differ. The texts themselves are not kept, and of a text that
/// is looked for only a few bytes are read: so many as tell the texts from one another.
///
/// Contracts see the number that is told of a text, by `text_number`, and whether one text alone has it, by `is_only`.
#[derive(Debug, Drop)]
pub struct TextNumbers {
    tree: Tree,
}

impl TextNumbers {
    /// The numbers of these texts, by their place. The only error is want of memory.
    pub fn of(alloc: Global, texts: &[String]) -> Result<TextNumbers, AllocError>
        ensures { IfOk result (λ numbers. AreNumbers numbers (map string_bytes texts.now)) }
    {
        let borrowed = borrowed(alloc, texts)?;
        TextNumbers::of_borrowed(alloc, &borrowed)
    }

    /// The numbers of these texts, by their place. They stand elsewhere, and none of them is copied. The only error is want of
    /// memory.
    pub fn of_borrowed(alloc: Global, texts: &[&str]) -> Result<TextNumbers, AllocError>
        ensures { IfOk result (λ numbers. AreNumbers numbers (map (λ t. t.now) texts.now)) }
    {
        Ok(TextNumbers {
            tree: built(alloc, texts, all_numbers(alloc, texts.len())?, 0)?,
        })
    }

    /// The number of this text, where it is one of those that were numbered, and some number otherwise: of texts that stand more
    /// than once, the number of one of them. This takes no memory.
    pub fn number(&self, text: &str) -> usize
        ensures { result ≡ text_number self.now text.now }
    {
        self.tree.leaf(text).number
    }

    /// The number of this text, as [`TextNumbers::number`] tells it, where one alone of those that were numbered has the same
    /// bytes in the places that are looked at. This takes no memory.
    pub fn only_number(&self, text: &str) -> Option<usize>
        ensures { IfSome result
            (λ n. (n ≡ text_number self.now text.now) × (is_only self.now text.now ≡ true)) }
    {
        let leaf = self.tree.leaf(text);
        if leaf.only { Some(leaf.number) } else { None }
    }
}

// These texts, each of which is borrowed.
fn borrowed(alloc: Global, texts: &[String]) -> Result<Vec<&str>, AllocError>
    ensures { IfOk result (λ ts. map (λ t. t.now) ts.items ≡ map string_bytes texts.now) }
{
    let mut borrowed = Vec::with_capacity(alloc, texts.len())?;
    for text in texts {
        borrowed.push(text.as_str())?;
    }
    Ok(borrowed)
}
