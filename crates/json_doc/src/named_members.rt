//! Members with their names as they stand there, so that keywords' names needn't be compared to be told.

ghost use Rattle.std.specs.Prelude.{◌≡◌, IfSome, IsTrue, option_map};
ghost use Rattle.std.specs.Iterator.{YieldsFirstBy, item_count};
ghost use Rattle.definitions.specs.Values.{same_text};
ghost use Rattle.json_doc.specs.Docs.{value};
ghost use Rattle.json_doc.specs.Members.{HasNamesInOrder, members_left};
ghost use Rattle.json_doc.specs.NamedMembers.{IsTaken, name_text, named_left, named_view};
ghost use Rattle.json_doc.specs.SmallTexts.{short_text};
ghost use Rattle.keywords.specs.Rows.{row_named, row_of};

use crate::doc::Doc;
use crate::members::MembersIter;
use crate::short_text::ShortText;
use crate::small_text::SmallText;
use keywords::Keyword;
use std::cmp::Ordering;

/// The name of a member, as it stands there.
///
/// Contracts see its text, by `name_text`.
#[derive(Clone, Copy, Debug)]
pub struct Name<'a> {
    stored: &'a SmallText,
}

impl<'a> Name<'a> {
    /// The text.
    #[inline(always)]
    pub fn as_str(self) -> &'a str
        ensures { result.now ≡ name_text self.entry }
    {
        self.stored.as_str()
    }

    /// The keyword of this name, if there is one. In a copy ([`copy`](crate::copy)) a keyword's name stands as the keyword,
    /// and is told without a look at its text.
    #[inline(always)]
    pub fn keyword(self) -> Option<Keyword>
        ensures { option_map row_of result ≡ row_named (name_text self.entry) }
    {
        self.stored.keyword()
    }

    /// Whether it surely is the other one: short names that are the same are told without a call.
    #[inline(always)]
    pub fn is_surely(self, other: Name<'_>) -> bool
        ensures { IsTrue result → name_text self.entry ≡ name_text other.entry }
    {
        self.stored.is_surely(other.stored)
    }

    /// Whether it surely is this short text.
    #[inline(always)]
    pub fn is_short(self, text: &ShortText) -> bool
        ensures { IsTrue result → name_text self.entry ≡ short_text text.now }
    {
        self.stored.is_short(text)
    }

    /// The text, where it is short and doesn't stand as a keyword.
    #[inline(always)]
    pub fn short(self) -> Option<&'a ShortText>
        ensures { IfSome result (λ s. short_text s.now ≡ name_text self.entry) }
    {
        self.stored.short()
    }

    /// Whether it is the name of this keyword.
    #[inline(always)]
    pub(crate) fn is(self, keyword: Keyword) -> bool
        ensures { result ≡ same_text (row_of keyword).name (name_text self.entry) }
    {
        self.stored.is(keyword)
    }
}

/// The members that are left of an object's, each with its name as it stands there, in byte order of names.
///
/// Contracts see them as a list of names and values, by `named_left`.
#[derive(Drop)]
pub struct NamedMembers<'a> {
    members: MembersIter<'a>,
}

impl<'a> NamedMembers<'a> {
    /// The members that are left of these, each with its name as it stands there.
    pub(crate) fn of(members: MembersIter<'a>) -> NamedMembers<'a>
        ensures { named_left result ≡ members_left members.entry }
    {
        NamedMembers { members }
    }

    /// The member of this name, among those that are left. It is passed over, and so are those whose names come before.
    #[inline(always)]
    pub fn take_named(&mut self, name: Name<'_>) -> Option<&'a Doc>
        ensures { HasNamesInOrder (named_left self.old)
            → IsTaken (name_text name.entry) (named_left self.old) (named_left self.new)
            (option_map (λ d. value d.now) result) }
    {
        'names: while let Some((key, _)) = self.members.entries.as_slice().first() {
            match key.compare(name.stored) {
                Ordering::Less => drop(self.members.entries.next()),
                Ordering::Equal => {
                    return match self.members.entries.next() {
                        Some((_, member)) => Some(member),
                        None => None,
                    };
                }
                Ordering::Greater => return None,
            }
        }
        None
    }
}

impl<'a> Iterator for NamedMembers<'a> {
    type Item = (Name<'a>, &'a Doc);

    ghost next_gives = { YieldsFirstBy named_view named_left };

    ghost remaining = { item_count named_left };

    #[inline(always)]
    #[tactic(auto, unfolding(crate::specs::Members::members_left))]
    fn next(&mut self) -> Option<(Name<'a>, &'a Doc)> {
        match self.members.entries.next() {
            Some((name, member)) => Some((Name { stored: name }, member)),
            None => None,
        }
    }
}
