//! Which keywords a schema object has, found in one walk over its members; of many, those whose names begin with `$`
//! are passed over.

ghost use Rattle.std.specs.Prelude.{◌≡◌, ◌≤◌, ◌<◌, ◌||◌, ℕ, None, Some, [], false, true, codes, is_some, option_map};
ghost use Rattle.std.specs.List.{list_any};
ghost use Rattle.std.specs.Int.{bit_at};
ghost use Rattle.definitions.specs.Values.{Text, get, members, text_at};
ghost use Rattle.definitions.specs.Uris.{begins};
ghost use Rattle.definitions.specs.Applied.{Application};
ghost use Rattle.definitions.specs.Outcomes.{other_annotations};
ghost use Rattle.json_doc.specs.Docs.{value, members_value};
ghost use Rattle.json_doc.specs.Members.{members_left};
ghost use Rattle.keywords.specs.Rows.{row_named, row_of};
ghost use Rattle.keywords.specs.declared.keyword.Keyword.TheVariants.{UnevaluatedItems, UnevaluatedProperties};
ghost use Rattle.evaluator.specs.Leaves.{IsLeaf};
ghost use Rattle.evaluator.specs.Presents.{AreMarked, has_mark, mark_of};

use crate::dollar_names::{are_many, cut_at_dollar_names};
use json_doc::{Doc, Members, MembersIter};
use keywords::{KEYWORDS, Keyword};

/// The mark of names that may annotate with their own value.
const ANNOTATES: usize = 63;

/// A schema, and which names stand in it: a bit for each group of keywords, in the order of evaluation, one for keywords
/// that are not evaluated, and the last for names that may annotate with their own value.
#[derive(Drop)]
pub(crate) struct Present<'s, 'a> {
    pub(crate) schema: &'a Doc,
    marks: u64,
    // Where keywords stand among the members of a schema that has few: there they are looked for first.
    positions: &'s [u8; KEYWORDS],
    ghost marked: { AreMarked marks (value schema.now) },
}

impl<'s, 'a> Present<'s, 'a> {
    /// What this schema has. Where its keywords stand is noted in the positions that are lent.
    #[inline(always)]
    pub(crate) fn of(schema: &'a Doc, positions: &'s mut [u8; KEYWORDS]) -> Present<'s, 'a>
        ensures { result.schema.now ≡ schema.now }
    {
        let marks = marks_in(schema, positions);
        Present {
            schema,
            marks,
            positions,
        }
    }

    /// The first mark from this one on that it may have, or 64.
    pub(crate) fn first_mark(&self, from: usize) -> usize
        requires { from < 64 }
        ensures onward { from ≤ result }
        ensures passed { (i : ℕ) → from ≤ i → i < result
            → list_any (has_mark i) (members (value self.now.schema.now)) ≡ false }
    {
        first_bit(self.marks, from)
    }

    /// Whether it may have a keyword that looks at what others evaluated.
    pub(crate) fn looks_at_evaluated(&self) -> bool
        ensures { result ≡ false
            → (is_some (get (row_of UnevaluatedItems).name (value self.now.schema.now))
            || is_some (get (row_of UnevaluatedProperties).name (value self.now.schema.now)))
            ≡ false }
    {
        self.may_have(Keyword::UnevaluatedItems) || self.may_have(Keyword::UnevaluatedProperties)
    }

    /// Whether it surely has no keywords but those that look at their own values and the instance alone, and those that only
    /// declare: none before `type`, not `pattern`, and none from `allOf` on.
    pub(crate) fn applies_nothing(&self) -> bool
        ensures { result ≡ true → IsLeaf (value self.now.schema.now) }
    {
        let pattern = Keyword::Pattern.group_number();
        let lacks_references = self.lacks(0, Keyword::Type.group_number());
        let lacks_pattern = self.lacks(pattern, pattern + 1);
        let lacks_others = self.lacks(
            Keyword::AllOf.group_number(),
            Keyword::UnevaluatedItems.group_number(),
        );
        let looks_at_evaluated = self.looks_at_evaluated();
        lacks_references & lacks_pattern & lacks_others & !looks_at_evaluated
    }

    // Whether it surely has none of the marks from the first to before the second.
    fn lacks(&self, first: usize, second: usize) -> bool
        requires { first < 64 }
        ensures { result ≡ true → (i : ℕ) → first ≤ i → i < second
            → list_any (has_mark i) (members (value self.now.schema.now)) ≡ false }
    {
        second <= self.first_mark(first)
    }

    // Whether it may have this keyword, or one of its group.
    fn may_have(&self, keyword: Keyword) -> bool
        ensures { result ≡ false → get (row_of keyword).name (value self.now.schema.now) ≡ None }
    {
        let mark = mark_of_keyword(keyword);
        self.first_mark(mark) == mark
    }

    /// Whether it has a name that may annotate with its own value: one that is no keyword's, or `contentSchema`.
    pub(crate) fn may_annotate(&self) -> bool
        ensures { (a : Application) → a.schema.value ≡ value self.now.schema.now → result ≡ false
            → other_annotations a ≡ [] }
    {
        self.first_mark(ANNOTATES) == ANNOTATES
    }

    /// The text of its `$id`, where it has one (Core, section 8.2.1).
    #[inline(always)]
    pub(crate) fn identifier(&self) -> Option<&'a str>
        ensures { option_map (λ t. t.now) result
            ≡ text_at (codes "$id") (value self.now.schema.now) }
    {
        if !self.may_have(Keyword::Id) {
            return None;
        }
        self.value(Keyword::Id)?.as_str()
    }

    /// The value of the keyword, where it is there.
    #[inline(always)]
    pub(crate) fn value(&self, keyword: Keyword) -> Option<&'a Doc>
        ensures { option_map (λ d. value d.now) result
            ≡ get (row_of keyword).name (value self.now.schema.now) }
    {
        let position = self.positions[keyword as usize] as usize;
        self.schema.keyword_value_near(keyword, position)
    }
}

// The marks of the names, and where keywords stand.
#[inline(always)]
fn marks_in(schema: &Doc, positions: &mut [u8; KEYWORDS]) -> u64
    ensures { AreMarked result (value schema.now) }
{
    match schema.as_dict() {
        Some(members) => marks_of(members, positions),
        None => 0,
    }
}

#[inline(always)]
fn marks_of(members: &Members, positions: &mut [u8; KEYWORDS]) -> u64
    ensures { (i : ℕ) → bit_at result i ≡ 0
        → list_any (has_mark i) (members_value members.now) ≡ false }
{
    if are_many(members) {
        marks_of_many(members, positions)
    } else {
        marks_among(members.iter(), positions)
    }
}

// Positions are noted from the start of the part that a keyword stands in, so that a value behind the names that are passed over
// is searched for.
fn marks_of_many(members: &Members, positions: &mut [u8; KEYWORDS]) -> u64
    ensures { (i : ℕ) → bit_at result i ≡ 0
        → list_any (has_mark i) (members_value members.now) ≡ false }
{
    let cut = cut_at_dollar_names(members);
    marks_among(cut.before, positions) | dollar_marks() | marks_among(cut.after, positions)
}

fn marks_among(members: MembersIter<'_>, positions: &mut [u8; KEYWORDS]) -> u64
    ensures { (i : ℕ) → bit_at result i ≡ 0
        → list_any (has_mark i) (members_left members.entry) ≡ false }
{
    let mut marks: u64 = 0;
    let mut position: u8 = 0;
    for (name, _) in members.named() {
        let keyword = name.keyword();
        marks |= 1u64 << mark_of(keyword);
        note_position(positions, keyword, position);
        position = position.wrapping_add(1);
    }
    marks
}

// The keyword stands at this position. What is noted wrongly costs a search, and no more.
#[inline(always)]
fn note_position(positions: &mut [u8; KEYWORDS], keyword: Option<Keyword>, position: u8) {
    if let Some(keyword) = keyword {
        positions[keyword as usize] = position;
    }
}

// The marks that names that begin with `$` may have: those of two keywords that are evaluated, that of keywords that
// are not, and that of names that are no keyword's.
fn dollar_marks() -> u64
    ensures { (name : Text) → begins name (codes "$") ≡ true → bit_at result (mark_of name) ≡ 1 }
{
    let reference = 1u64 << mark_of_keyword(Keyword::Ref);
    let dynamic_reference = 1u64 << mark_of_keyword(Keyword::DynamicRef);
    let declaration = 1u64 << mark_of_keyword(Keyword::Defs);
    reference | dynamic_reference | declaration | 1u64 << ANNOTATES
}

// The mark of a name that is this keyword's, or else no keyword's.
fn mark_of(keyword: Option<Keyword>) -> usize
    ensures mark { (name : Text) → option_map row_of keyword ≡ row_named name
        → result ≡ mark_of name }
    ensures within { result < 64 }
{
    match keyword {
        Some(keyword) => mark_of_keyword(keyword),
        None => ANNOTATES,
    }
}

#[inline(always)]
fn mark_of_keyword(keyword: Keyword) -> usize
    ensures mark { result ≡ mark_of (row_of keyword).name }
    ensures within { result < 64 }
{
    match keyword {
        Keyword::ContentSchema => ANNOTATES,
        _ => keyword.group_number(),
    }
}

// The lowest bit that is 1 from this one on, or 64.
fn first_bit(bits: u64, from: usize) -> usize
    requires { from < 64 }
    ensures onward { from ≤ result }
    ensures passed { (i : ℕ) → from ≤ i → i < result → bit_at bits i ≡ 0 }
{
    let rest = bits & (u64::MAX << from);
    if rest == 0 {
        64
    } else {
        rest.trailing_zeros() as usize
    }
}
