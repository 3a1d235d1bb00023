//! Texts that stand twice.

ghost use Rattle.std.specs.Prelude.{◌≡◌, ◌++◌, IfOk, OnOk, map, option_map, string_bytes};
ghost use Rattle.definitions.specs.Batches.{repeats};
ghost use Rattle.definitions.specs.Reach.{least};

use crate::taken_uris::lesser;
use std::alloc::{AllocError, Global};
use std::collections::BTreeSet;

// The least in byte order of the texts that stand twice.
pub(crate) fn least_repeat<'a>(
    alloc: Global,
    texts: &[&'a str],
) -> Result<Option<&'a str>, AllocError>
    ensures { IfOk result (λ t. option_map (λ t. t.now) t
        ≡ least (repeats (map (λ t. t.now) texts.now))) }
{
    let mut seen = BTreeSet::new(alloc);
    let mut found = None;
    for text in texts {
        if !seen.insert(*text)? {
            found = Some(lesser(text, found));
        }
    }
    Ok(found)
}

pub(crate) fn push_texts<'a>(texts: &mut Vec<&'a str>, more: &'a [String]) -> Result<(), AllocError>
    ensures { OnOk result (map (λ t. t.now) texts.new.items
        ≡ map (λ t. t.now) texts.old.items ++ map string_bytes more.now) }
{
    for text in more {
        texts.push(text.as_str())?;
    }
    Ok(())
}
