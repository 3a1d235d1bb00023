//! Values by name, in one list.

ghost use Rattle.std.specs.Prelude.{◌≡◌, ◌<◌, ◌↔◌, [], ◌++◌, IsTrue, length, IfOk, IfErr, IfSome, OnOk, OnErr, option_map};
ghost use Rattle.std.specs.List.Sorted.{IsStrictlySortedBy};
ghost use Rattle.std.specs.Map.{keys_of};
ghost use Rattle.json_doc.specs.SmallTexts.{short_text, text_view, text_cmp};
ghost use Rattle.json_doc.specs.NameMaps.{entry_view, entry_named, IsAbove, IsAboveNone, IsPositionOf, IsGapFor, IsPut};

use crate::name_order::compare_names;
use crate::short_text::ShortText;
use crate::small_text::SmallText;
use crate::tuning::FEW_NAMES;
use std::alloc::{AllocError, Global};
use std::cmp::Ordering;
use std::collections::BTreeMap;
use std::marker::Model;

/// Values by name: each name once, in byte order of names.
///
/// Contracts see the list of the names and values.
#[derive(Debug, Drop)]
pub(crate) struct NameMap<T> {
    entries: Vec<(SmallText, T)>,
}

impl<T> Model for NameMap<T> {
    ghost use Rattle.std.specs.Prelude.{List};
    ghost use Rattle.std.specs.List.Sorted.{IsStrictlySortedBy};
    ghost use Rattle.std.specs.Map.{keys_of};
    ghost use Rattle.json_doc.specs.SmallTexts.{text_cmp};
    ghost use Rattle.json_doc.specs.declared.small_text.SmallText.{SmallText};
    ghost use Rattle.json_doc.specs.NameMaps.{name_map_code};

    ghost Value = { List (SmallText × T) };

    ghost coded = { name_map_code T.code };

    ghost view = { λ m. m.entries.items };

    ghost invariant = { λ m. IsStrictlySortedBy text_cmp (keys_of m.entries.items) };
}

impl<T> NameMap<T> {
    /// No values. This takes no memory.
    pub fn new(alloc: Global) -> NameMap<T>
        ensures { result ≡ [] }
    {
        NameMap {
            entries: Vec::new(alloc),
        }
    }

    /// How many values there are.
    pub fn len(&self) -> usize
        ensures { result ≡ length self.now }
    {
        self.entries.len()
    }

    /// Whether there are none.
    pub fn is_empty(&self) -> bool
        ensures { IsTrue result ↔ (self.now ≡ []) }
    {
        self.entries.is_empty()
    }

    /// The names and values.
    pub fn as_slice(&self) -> &[(SmallText, T)]
        ensures all { result.now ≡ self.now }
        ensures ordered { IsStrictlySortedBy text_cmp (keys_of self.now) }
    {
        self.entries.as_slice()
    }

    /// The value of this name, with the name as it stands here. The time grows with the logarithm of their number.
    pub fn get_key_value(&self, name: &str) -> Option<&(SmallText, T)>
        ensures { option_map entry_view result ≡ entry_named name.now self.now }
    {
        let entries = self.as_slice();
        match position_of(entries, name) {
            Ok(position) => Some(&entries[position]),
            Err(_) => None,
        }
    }

    /// The value whose name is this short text, with the name as it stands here. Among few names it is found without a call;
    /// otherwise the time grows with the logarithm of their number.
    #[inline(always)]
    pub fn get_key_value_of(&self, name: &ShortText) -> Option<&(SmallText, T)>
        ensures { option_map entry_view result ≡ entry_named (short_text name.now) self.now }
    {
        let entries = self.as_slice();
        match position_among_few(entries, name) {
            Some(position) => Some(&entries[position]),
            None => self.get_key_value(name.as_str()),
        }
    }

    /// Makes room for so many values, where there are none yet. The only error is want of memory.
    #[inline(always)]
    pub fn make_room(&mut self, values: usize) -> Result<(), AllocError>
        ensures { self.new ≡ self.old }
    {
        if self.entries.is_empty() {
            self.entries.reserve(values)?;
        }
        Ok(())
    }

    /// Whether the name comes after all that are here.
    #[inline(always)]
    pub fn ends_before(&self, name: &str) -> bool
        ensures { IsTrue result → IsAbove name.now self.now }
    {
        is_above_all(self.as_slice(), name)
    }
}

impl<T: Drop> NameMap<T> {
    /// The names and values as a map that takes more names in any order. The only error is want of memory.
    pub fn into_map(self, alloc: Global) -> Result<BTreeMap<SmallText, T>, AllocError>
        ensures { IfOk result (λ m. m.entries ≡ self) }
    {
        let NameMap { entries } = self;
        let mut map = BTreeMap::new(alloc);
        for (name, value) in entries {
            drop(map.insert(name, value)?);
        }
        Ok(map)
    }

    /// The values of a map. The only error is want of memory.
    pub fn from_map(alloc: Global, map: BTreeMap<SmallText, T>) -> Result<NameMap<T>, AllocError>
        ensures { IfOk result (λ m. m ≡ map.entries) }
    {
        let mut entries = Vec::with_capacity(alloc, map.len())?;
        for (name, value) in map {
            entries.push((name, value))?;
        }
        Ok(NameMap { entries })
    }

    /// Puts a value in, in place of the one of the same name, if there is one. The only error is want of memory, and
    /// then the map stays as it was.
    #[inline(always)]
    pub fn insert(&mut self, alloc: Global, name: &str, value: T) -> Result<(), AllocError>
        ensures ok { OnOk result (IsPut name.now value self.old self.new) }
        ensures unchanged { OnErr result (self.new ≡ self.old) }
    {
        if self.ends_before(name) {
            return self.push(SmallText::from_str(alloc, name)?, value);
        }
        self.put(alloc, name, value)
    }

    /// Puts a value in, in place of the one of the same name, if there is one. A new name that comes after all that are here
    /// stands as the keyword if it is one's. The only error is want of memory, and then the map stays as it was.
    pub fn insert_named(&mut self, alloc: Global, name: &str, value: T) -> Result<(), AllocError>
        ensures ok { OnOk result (IsPut name.now value self.old self.new) }
        ensures unchanged { OnErr result (self.new ≡ self.old) }
    {
        if self.ends_before(name) {
            return self.push(SmallText::named(alloc, name)?, value);
        }
        self.put(alloc, name, value)
    }

    // Puts a value in at a name that comes after all that are here.
    #[inline(always)]
    fn push(&mut self, name: SmallText, value: T) -> Result<(), AllocError>
        requires { IsAbove (text_view name) self.old }
        ensures ok { OnOk result (IsPut (text_view name) value self.old self.new) }
        ensures unchanged { OnErr result (self.new ≡ self.old) }
    {
        self.entries.push((name, value))?;
        Ok(())
    }

    // Puts a value in, wherever the name goes.
    #[inline(never)]
    fn put(&mut self, alloc: Global, name: &str, value: T) -> Result<(), AllocError>
        ensures ok { OnOk result (IsPut name.now value self.old self.new) }
        ensures unchanged { OnErr result (self.new ≡ self.old) }
    {
        match position_of(self.entries.as_slice(), name) {
            Ok(position) => {
                self.entries[position].1 = value;
                Ok(())
            }
            Err(gap) => {
                self.entries
                    .insert(gap, (SmallText::from_str(alloc, name)?, value))?;
                Ok(())
            }
        }
    }
}

/// The entries whose names are below this one, and the others. The time grows with the logarithm of their number.
pub(crate) fn split_at_name<'a, T>(
    entries: &'a [(SmallText, T)],
    name: &str,
) -> (&'a [(SmallText, T)], &'a [(SmallText, T)])
    requires { IsStrictlySortedBy text_cmp (keys_of entries.now) }
    ensures all { result.0.now ++ result.1.now ≡ entries.now }
    ensures below { IsAbove name.now result.0.now }
    ensures others { IsAboveNone name.now result.1.now }
    ensures ordered { IsStrictlySortedBy text_cmp (keys_of result.1.now) }
{
    match position_of(entries, name) {
        Ok(position) => entries.split_at(position),
        Err(gap) => entries.split_at(gap),
    }
}

#[inline(always)]
fn is_above_all<T>(entries: &[(SmallText, T)], name: &str) -> bool
    requires { IsStrictlySortedBy text_cmp (keys_of entries.now) }
    ensures { IsTrue result → IsAbove name.now entries.now }
{
    match entries.last() {
        Some((last, _)) => compare_names(name, last.as_str()).is_gt(),
        None => true,
    }
}

// Where the short text stands, if it is seen among few names, which are gone through.
#[inline(always)]
fn position_among_few<T>(entries: &[(SmallText, T)], name: &ShortText) -> Option<usize>
    requires { IsStrictlySortedBy text_cmp (keys_of entries.now) }
    ensures { IfSome result (IsPositionOf (short_text name.now) entries.now) }
{
    if entries.len() > FEW_NAMES {
        return None;
    }
    for (position, (own, _)) in entries.iter().enumerate() {
        if own.is_short(name) {
            return Some(position);
        }
    }
    None
}

// Where the name stands, or where it would go.
fn position_of<T>(entries: &[(SmallText, T)], name: &str) -> Result<usize, usize>
    requires { IsStrictlySortedBy text_cmp (keys_of entries.now) }
    ensures found { IfOk result (IsPositionOf name.now entries.now) }
    ensures gap { IfErr result (IsGapFor name.now entries.now) }
{
    let mut low = 0;
    let mut high = entries.len();
    while low < high {
        let middle = low + (high - low) / 2;
        match compare_names(name, entries[middle].0.as_str()) {
            Ordering::Less => high = middle,
            Ordering::Equal => return Ok(middle),
            Ordering::Greater => low = middle + 1,
        }
    }
    Err(low)
}
