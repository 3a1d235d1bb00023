//! The members of a JSON object.

ghost use Rattle.std.specs.Prelude.{◌≡◌, ◌↔◌, [], ◌∷◌, ◌++◌, IsTrue, OnOk, OnErr, length, map, option_map};
ghost use Rattle.std.specs.Iterator.{YieldsFirstBy, item_count};
ghost use Rattle.definitions.specs.Values.{entry};
ghost use Rattle.json_doc.specs.Docs.{value, members_value};
ghost use Rattle.keywords.specs.Rows.{row_of};
ghost use Rattle.json_doc.specs.NamedMembers.{named_left};
ghost use Rattle.json_doc.specs.SmallTexts.{short_text};
ghost use Rattle.json_doc.specs.Members.{members_with, member_view, member_value, members_left, AreBelow, AreNotBelow, HasNamesInOrder, HasTextsAsNames};

use crate::doc::Doc;
use crate::name_map::{NameMap, split_at_name};
use crate::named_members::NamedMembers;
use crate::short_text::ShortText;
use crate::small_text::SmallText;
use crate::tuning::FEW_NAMES;
use keywords::Keyword;
use std::alloc::{AllocError, Global};
use std::slice;

/// The members of a JSON object: each name once, in byte order of names.
///
/// Contracts see them as the definitions' list of names and values, by `members_value`.
#[cycle(doc)]
#[derive(Debug, Drop)]
pub struct Members {
    entries: NameMap<Doc>,
}

impl Members {
    /// No members. This takes no memory.
    pub fn new(alloc: Global) -> Members
        ensures { members_value result ≡ [] }
    {
        Members {
            entries: NameMap::new(alloc),
        }
    }

    /// How many members there are.
    pub fn len(&self) -> usize
        ensures { result ≡ length (members_value self.now) }
    {
        self.entries.len()
    }

    /// Whether there are none.
    pub fn is_empty(&self) -> bool
        ensures { IsTrue result ↔ (members_value self.now ≡ []) }
    {
        self.entries.is_empty()
    }

    /// The member of this name.
    pub fn get(&self, name: &str) -> Option<&Doc>
        ensures { option_map (λ d. value d.now) result ≡ entry name.now (members_value self.now) }
    {
        match self.entries.get_key_value(name) {
            Some((_, found)) => Some(found),
            None => None,
        }
    }

    /// The member whose name is this short text. Among few members it is found without a call.
    #[inline(always)]
    pub fn get_short(&self, name: &ShortText) -> Option<&Doc>
        ensures { option_map (λ d. value d.now) result
            ≡ entry (short_text name.now) (members_value self.now) }
    {
        match self.entries.get_key_value_of(name) {
            Some((_, found)) => Some(found),
            None => None,
        }
    }

    /// The member of this keyword's name. Of few members it is found without a look at the texts of keywords' names, where
    /// these stand as the keywords ([`copy`](crate::copy)).
    #[inline(always)]
    pub fn keyword_value(&self, keyword: Keyword) -> Option<&Doc>
        ensures { option_map (λ d. value d.now) result
            ≡ entry (row_of keyword).name (members_value self.now) }
    {
        if self.len() > FEW_NAMES {
            return self.get(keyword.name());
        }
        self.first_value(keyword)
    }

    /// The member of this keyword's name. Where it stands at this position among the members, it needn't be searched for.
    #[inline(always)]
    pub fn keyword_value_near(&self, keyword: Keyword, position: usize) -> Option<&Doc>
        ensures { option_map (λ d. value d.now) result
            ≡ entry (row_of keyword).name (members_value self.now) }
    {
        match self.entries.as_slice().get(position) {
            Some((name, member)) if name.is(keyword) => Some(member),
            _ => self.keyword_value_far(keyword),
        }
    }

    // The member of this keyword's name, which is searched for. It is called apart, since few members need that.
    #[inline(never)]
    fn keyword_value_far(&self, keyword: Keyword) -> Option<&Doc>
        ensures { option_map (λ d. value d.now) result
            ≡ entry (row_of keyword).name (members_value self.now) }
    {
        self.keyword_value(keyword)
    }

    // The member of this keyword's name, for which one member after the other is looked at.
    #[inline(always)]
    fn first_value(&self, keyword: Keyword) -> Option<&Doc>
        ensures { option_map (λ d. value d.now) result
            ≡ entry (row_of keyword).name (members_value self.now) }
    {
        for (name, member) in self.iter().named() {
            if name.is(keyword) {
                return Some(member);
            }
        }
        None
    }

    /// The member of this name, with its name as it stands here. The time grows with the logarithm of the number of
    /// members, as that of `get` does.
    pub fn get_key_value(&self, name: &str) -> Option<(&str, &Doc)>
        ensures found { option_map member_view result
            ≡ option_map (λ v. (name.now, v)) (entry name.now (members_value self.now)) }
        ensures ordered { HasNamesInOrder (members_value self.now) }
    {
        let entries = &self.entries;
        // Its contract says that the names are in order.
        let _ = entries.as_slice();
        match entries.get_key_value(name) {
            Some((key, member)) => Some((key.as_str(), member)),
            None => None,
        }
    }

    /// The members with their names, in byte order of names.
    pub fn iter(&self) -> MembersIter<'_>
        ensures all { members_left result ≡ members_value self.now }
        ensures ordered { HasNamesInOrder (members_value self.now) }
        ensures utf8 { HasTextsAsNames (members_value self.now) }
    {
        MembersIter::of(self.entries.as_slice())
    }

    /// The members cut in three: those whose names are below the first name, of the others those below the second,
    /// and the rest. The time grows with the logarithm of the number of members.
    pub fn cut_between(&self, low: &str, high: &str) -> Cut<'_>
        ensures all { members_left result.before
            ++ (members_left result.within ++ members_left result.after)
            ≡ members_value self.now }
        ensures before { AreBelow low.now (members_left result.before) }
        ensures within { AreNotBelow low.now (members_left result.within)
            × AreBelow high.now (members_left result.within) }
        ensures after { AreNotBelow low.now (members_left result.after)
            × AreNotBelow high.now (members_left result.after) }
    {
        let (before, others) = split_at_name(self.entries.as_slice(), low);
        let (within, after) = split_at_name(others, high);
        Cut {
            before: MembersIter::of(before),
            within: MembersIter::of(within),
            after: MembersIter::of(after),
        }
    }

    /// Puts a member in, in place of the one of the same name, if there is one: the last of repeated names wins
    /// (RFC 8259, section 4). The only error is want of memory, and then the members stay as they were.
    pub fn insert(&mut self, alloc: Global, name: &str, member: Doc) -> Result<(), AllocError>
        ensures ok { OnOk result
            (members_value self.new ≡ members_with name.now (value member)
            (members_value self.old)) }
        ensures unchanged { OnErr result (members_value self.new ≡ members_value self.old) }
    {
        self.entries.insert(alloc, name, member)?;
        Ok(())
    }

    /// Puts a member in, in place of the one of the same name, if there is one. A new name that comes after all that are here
    /// stands as the keyword if it is one's, so that it needn't be compared to be told as one. The only error is want of memory,
    /// and then the members stay as they were.
    pub(crate) fn insert_named(
        &mut self,
        alloc: Global,
        name: &str,
        member: Doc,
    ) -> Result<(), AllocError>
        ensures ok { OnOk result
            (members_value self.new ≡ members_with name.now (value member)
            (members_value self.old)) }
        ensures unchanged { OnErr result (members_value self.new ≡ members_value self.old) }
    {
        self.entries.insert_named(alloc, name, member)?;
        Ok(())
    }

    /// These values as members.
    pub(crate) fn of(entries: NameMap<Doc>) -> Members
        ensures { members_value result ≡ map member_value entries }
    {
        Members { entries }
    }
}

/// The members that are left of an object's, each with its name, in byte order of names.
///
/// Contracts see them as a list of names and values, by `members_left`.
#[derive(Drop)]
pub struct MembersIter<'a> {
    pub(crate) entries: slice::Iter<'a, (SmallText, Doc)>,
}

impl<'a> MembersIter<'a> {
    // These entries as members.
    #[tactic(auto, unfolding(crate::specs::Members::members_left))]
    fn of(entries: &'a [(SmallText, Doc)]) -> MembersIter<'a>
        ensures { members_left result ≡ map member_value entries.now }
    {
        MembersIter {
            entries: entries.iter(),
        }
    }

    /// The members that are left, each with its name as it stands in the object.
    pub fn named(self) -> NamedMembers<'a>
        ensures { named_left result ≡ members_left self.entry }
    {
        NamedMembers::of(self)
    }
}

impl<'a> Iterator for MembersIter<'a> {
    type Item = (&'a str, &'a Doc);

    ghost next_gives = { YieldsFirstBy member_view members_left };

    ghost remaining = { item_count members_left };

    #[inline(always)]
    #[tactic(auto, unfolding(crate::specs::Members::members_left))]
    fn next(&mut self) -> Option<(&'a str, &'a Doc)> {
        match self.entries.next() {
            Some((name, member)) => Some((name.as_str(), member)),
            None => None,
        }
    }
}

/// The members of an object cut in three, each part in byte order of names.
#[derive(Drop)]
pub struct Cut<'a> {
    /// The members before the first cut.
    pub before: MembersIter<'a>,
    /// Those between the two cuts.
    pub within: MembersIter<'a>,
    /// Those after the second.
    pub after: MembersIter<'a>,
}
