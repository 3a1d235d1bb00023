//! Names that stand twice: URIs of resources, and anchors (JSON Schema 2020-12 Core, sections 8.2.1 and 8.2.2).

ghost use Rattle.std.specs.Prelude.{◌≡◌, IfOk, map, string_bytes};
ghost use Rattle.definitions.specs.Lists.{has_repeat};
ghost use Rattle.definitions.specs.Scanning.{same_anchor};
ghost use Rattle.definitions.specs.Values.{same_text};
ghost use Rattle.schema_table.specs.AnchorViews.{anchor_view};
ghost use Rattle.schema_table.specs.Gathering.{anchor_mark, mark_pair};

use crate::anchors::Anchor;
use crate::repeats::has_repeat;
use std::alloc::{AllocError, Global};

/// Whether two of the URIs are the same.
pub(crate) fn has_repeated_uri(alloc: Global, uris: &[String]) -> Result<bool, AllocError>
    ensures { IfOk result (λ b. b ≡ has_repeat same_text (map string_bytes uris.now)) }
{
    let uris = borrowed(alloc, uris)?;
    has_repeat(alloc, &uris)
}

/// Whether two of the anchors have one name in one resource.
pub(crate) fn has_repeated_anchor(alloc: Global, anchors: &[Anchor]) -> Result<bool, AllocError>
    ensures { IfOk result (λ b. b
        ≡ has_repeat same_anchor (map mark_pair (map anchor_mark anchors.now))) }
{
    let pairs = pairs_of(alloc, anchors)?;
    has_repeat(alloc, &pairs)
}

fn borrowed(alloc: Global, texts: &[String]) -> Result<Vec<&str>, AllocError>
    ensures { IfOk result (λ ts. map (λ t. t.now) ts.items ≡ map string_bytes texts.now) }
{
    let mut borrowed = Vec::with_capacity(alloc, texts.len())?;
    for text in texts {
        borrowed.push(text.as_str())?;
    }
    Ok(borrowed)
}

// The URI of each anchor's resource, and its name.
fn pairs_of(alloc: Global, anchors: &[Anchor]) -> Result<Vec<(&str, &str)>, AllocError>
    ensures { IfOk result (λ pairs. map anchor_view pairs.items
        ≡ map mark_pair (map anchor_mark anchors.now)) }
{
    let mut pairs = Vec::with_capacity(alloc, anchors.len())?;
    for anchor in anchors {
        pairs.push((anchor.resource.as_str(), anchor.name.as_str()))?;
    }
    Ok(pairs)
}
