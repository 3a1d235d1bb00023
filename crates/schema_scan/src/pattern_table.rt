//! The patterns of a document, each built once.

ghost use Rattle.std.specs.Prelude.{◌≡◌, ◌≢◌, ◌<◌, ◌≤◌, true, IfOk, IfErr, OnOk, map, length, string_bytes};
ghost use Rattle.std.specs.List.{list_all};
ghost use Rattle.definitions.specs.Values.{Text};
ghost use Rattle.definitions.specs.Patterns.{is_read};
ghost use Rattle.schema_scan.specs.TextsAmong.{is_among};
ghost use Rattle.text_numbers.specs.TextNumbers.{AreNumbers};

use faults::Fault;
use patterns::Pattern;
use std::alloc::{AllocError, Global};
use std::collections::BTreeSet;
use text_numbers::TextNumbers;

/// How many bytes the tables of a document's patterns may take together: room for two thousand copies of `\w`, or for
/// tens of thousands of small patterns.
const SIZE_LIMIT: usize = 32 << 20;

/// Patterns, and the numbers by which they are found from their texts.
///
/// Contracts see the texts that it holds, by `holds_pattern`.
#[derive(Drop)]
pub(crate) struct PatternTable {
    pub(crate) patterns: Vec<Pattern>,
    pub(crate) numbers: TextNumbers,
    ghost numbered: { AreNumbers numbers patterns.items },
}

impl PatternTable {
    ghost use Rattle.schema_scan.specs.PatternTables.{holds_pattern};

    /// Builds the pattern of each text, once where a text stands more than once. The first pattern that can't be built
    /// is [`Fault::BadPattern`], and so is the first that takes more than what those before it have left of 32 MiB.
    pub(crate) fn build(alloc: Global, texts: &[&str]) -> Result<PatternTable, Fault>
        ensures held { IfOk result
            (λ t. list_all (holds_pattern t) (map (λ t. t.now) texts.now) ≡ true) }
        ensures read { OnOk result (list_all is_read (map (λ t. t.now) texts.now) ≡ true) }
        ensures err { IfErr result
            (λ f. f ≢ Fault.NoRoom → (f ≡ Fault.BadPattern) × (0 < length texts.now)) }
    {
        let distinct = distinct_texts(alloc, texts)?;
        let patterns = built_patterns(alloc, &distinct)?;
        let numbers = TextNumbers::of(alloc, &distinct)?;
        Ok(PatternTable { patterns, numbers })
    }
}

// The texts, each once, in the order in which they first stand.
fn distinct_texts(alloc: Global, texts: &[&str]) -> Result<Vec<String>, AllocError>
    ensures same { IfOk result (λ ts. (q : Text)
        → is_among (map string_bytes ts.items) q ≡ is_among (map (λ t. t.now) texts.now) q) }
    ensures bound { IfOk result (λ ts. length ts.items ≤ length texts.now) }
{
    let mut distinct = Vec::new(alloc);
    let mut seen = BTreeSet::new(alloc);
    for text in texts {
        if !seen.contains(*text) {
            seen.insert(String::from_str(alloc, text)?)?;
            distinct.push(String::from_str(alloc, text)?)?;
        }
    }
    Ok(distinct)
}

// The pattern of each text, each built in what is left of the room.
fn built_patterns(alloc: Global, texts: &[String]) -> Result<Vec<Pattern>, Fault>
    ensures built { IfOk result (λ ps. ps.items ≡ map string_bytes texts.now) }
    ensures read { OnOk result (list_all is_read (map string_bytes texts.now) ≡ true) }
    ensures err { IfErr result
        (λ f. f ≢ Fault.NoRoom → (f ≡ Fault.BadPattern) × (0 < length texts.now)) }
{
    let mut patterns = Vec::with_capacity(alloc, texts.len())?;
    let mut room = SIZE_LIMIT;
    for text in texts {
        patterns.push(Pattern::build_within(alloc, text.as_str(), &mut room)?)?;
    }
    Ok(patterns)
}
