//! Texts of lists of names that are kept, since the same few lists are written again and again.

ghost use Rattle.std.specs.Prelude.{◌≡◌, ◌≢◌, ◌<◌, [], length, map, string_bytes, true, IfOk, IfSome, OnOk};
ghost use Rattle.std.specs.Bool.{OnTrue};
ghost use Rattle.definitions.specs.Values.{Text};
ghost use Rattle.json_doc.specs.NamedMembers.{name_text};
ghost use Rattle.json_doc.specs.SmallTexts.{short_text};
ghost use Rattle.basic_output.specs.Pieces.{names_text};

use crate::tuning::{KEPT_LISTS, LONGEST_KEPT_LIST};
use json_doc::{Name, ShortText};
use std::alloc::{AllocError, Global};

/// The text of a list of short names.
#[derive(Debug, Drop)]
struct NameList {
    text: String,
    names: Vec<ShortText>,
    ghost right: { names.items ≢ [] → string_bytes text ≡ names_text (map short_text names.items) },
}

impl NameList {
    // Of no list. This takes no memory; what comes later takes it from `alloc`.
    fn new(alloc: Global) -> NameList {
        NameList {
            text: String::new(alloc),
            names: Vec::new(alloc),
        }
    }

    // The text of the list of these names, where all of them are short, and else of no list. The only error is want of memory.
    fn of(alloc: Global, names: &[Name<'_>], text: &str) -> Result<NameList, AllocError>
        requires { text.now ≡ names_text (map name_text names.now) }
    {
        let mut short = Vec::new(alloc);
        for name in names {
            match name.short() {
                Some(text) => short.push(*text)?,
                None => return Ok(NameList::new(alloc)),
            }
        }
        let text = String::from_str(alloc, text)?;
        Ok(NameList { text, names: short })
    }

    // Whether it surely is the text of the list of these names.
    #[inline(always)]
    fn is_of(&self, names: &[Name<'_>]) -> bool
        ensures { OnTrue result (string_bytes self.now.text
            ≡ names_text (map name_text names.now)) }
    {
        !names.is_empty() && names.len() == self.names.len() && are_surely(names, &self.names)
    }
}

// Whether as many names surely are these.
#[inline(always)]
fn are_surely(names: &[Name<'_>], short: &[ShortText]) -> bool
    requires { length names.now ≡ length short.now }
    ensures { OnTrue result (map name_text names.now ≡ map short_text short.now) }
{
    for at in 0..names.len() {
        if !names[at].is_short(&short[at]) {
            return false;
        }
    }
    true
}

/// Texts of lists of short names.
#[derive(Debug, Drop)]
pub(crate) struct NameListCache {
    texts: Vec<NameList>,
}

impl NameListCache {
    ghost use Rattle.basic_output.specs.NameLists.{IsKept};

    /// None. This takes no memory; what is kept takes it from `alloc`.
    pub(crate) fn new(alloc: Global) -> NameListCache {
        NameListCache {
            texts: Vec::new(alloc),
        }
    }

    /// The place at which the text of the list of these names is kept, if it is.
    #[inline(always)]
    pub(crate) fn find(&self, names: &[Name<'_>]) -> Option<usize>
        ensures { IfSome result
            (λ place. IsKept self.now place (names_text (map name_text names.now))) }
    {
        let place = place_of(names);
        self.texts.get(place)?.is_of(names).then_some(place)
    }

    /// The text that is kept at that place.
    #[inline(always)]
    pub(crate) fn text(&self, place: usize) -> &str
        requires { place < length self.now.texts.items }
        ensures { (t : Text) → IsKept self.now place t → result.now ≡ t }
    {
        self.texts[place].text.as_str()
    }

    /// Keeps the text of the list of these names, where it is short. The only error is want of memory.
    pub(crate) fn keep(&mut self, names: &[Name<'_>], text: &str) -> Result<(), AllocError>
        requires { text.now ≡ names_text (map name_text names.now) }
    {
        let alloc = *self.texts.allocator();
        let place = place_of(names);
        if text.len() <= LONGEST_KEPT_LIST {
            while self.texts.len() <= place {
                self.texts.push(NameList::new(alloc))?;
            }
            self.texts[place] = NameList::of(alloc, names, text)?;
        }
        Ok(())
    }
}

// The place of the list of these names, told by how many there are, and by the first one and the last.
#[inline(always)]
fn place_of(names: &[Name<'_>]) -> usize
    ensures { result < 64 }
{
    match (names.first(), names.last()) {
        (Some(first), Some(last)) => {
            (names.len() ^ (ends_of(*first) << 2) ^ (ends_of(*last) << 1)) & (KEPT_LISTS - 1)
        }
        _ => 0,
    }
}

// A number that its length and its two ends give.
#[inline(always)]
fn ends_of(name: Name<'_>) -> usize {
    let bytes = name.as_str().as_bytes();
    match (bytes.first(), bytes.last()) {
        (Some(first), Some(last)) => bytes.len() ^ usize::from(*first) ^ (usize::from(*last) << 2),
        _ => 0,
    }
}
