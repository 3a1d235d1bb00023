//! Names, of which short ones stand in the value itself, and keywords' names as the keyword.

ghost use Rattle.std.specs.Prelude.{◌≡◌, ◌≤◌, IsTrue, Some, IfOk, length, nat_eq, option_map, refl, IfSome};
ghost use Rattle.std.specs.Result.{IsOk};
ghost use Rattle.std.specs.Cmp.{on_equiv, on_total, on_po, on_per, partial_equiv_from_equiv};
ghost use Rattle.std.specs.Cmp.Lexicographic.{pointwise, slice_cmp, nat_list_eq_equiv, nat_list_cmp_total, texts_po, texts_ties};
ghost use Rattle.std.specs.Ordering.{nat_cmp};
ghost use Rattle.definitions.specs.Values.{same_text};
ghost use Rattle.json_doc.specs.SmallTexts.{short_text, text_cmp, text_view};
ghost use Rattle.keywords.specs.Rows.{row_named, row_of};

use crate::name_order::compare_names;
use crate::short_text::ShortText;
use keywords::Keyword;
use std::alloc::{AllocError, Global};
use std::cmp::Ordering;

/// A text, which stands in the value itself where it has at most 24 bytes, as most names of members do, or where it is a
/// keyword's name: those take no memory of their own.
///
/// Contracts see its bytes, by `text_view`.
#[derive(Debug, Drop)]
pub(crate) enum SmallText {
    /// At most 24 bytes.
    Short(ShortText),
    /// The name of a keyword.
    Keyword(Keyword),
    /// Any number of bytes.
    Long(String),
}

// What a name takes beside its value.
const _: () = prove!(size_of::<SmallText>() == 32);

impl SmallText {
    /// This text. The only error is want of memory, which no text of at most 24 bytes takes.
    #[inline(always)]
    pub fn from_str(alloc: Global, text: &str) -> Result<SmallText, AllocError>
        ensures ok { IfOk result (λ t. text_view t ≡ text.now) }
        ensures short { length text.now ≤ 24 → IsOk result }
    {
        match ShortText::of(text) {
            Some(short) => Ok(SmallText::Short(short)),
            None => Ok(SmallText::Long(String::from_str(alloc, text)?)),
        }
    }

    /// This text, which stands as the keyword where it is one's name. The only error is want of memory.
    pub fn named(alloc: Global, text: &str) -> Result<SmallText, AllocError>
        ensures { IfOk result (λ t. text_view t ≡ text.now) }
    {
        match Keyword::named(text) {
            Some(keyword) => Ok(SmallText::Keyword(keyword)),
            None => SmallText::from_str(alloc, text),
        }
    }

    /// The keyword of this name, if there is one.
    #[inline(always)]
    pub fn keyword(&self) -> Option<Keyword>
        ensures { option_map row_of result ≡ row_named (text_view self.now) }
    {
        match self {
            SmallText::Keyword(keyword) => Some(*keyword),
            _ => Keyword::named(self.as_str()),
        }
    }

    /// Whether it is the name of this keyword.
    #[inline(always)]
    pub fn is(&self, keyword: Keyword) -> bool
        ensures { result ≡ same_text (row_of keyword).name (text_view self.now) }
    {
        match self {
            SmallText::Keyword(own) => is_same_keyword(keyword, *own),
            _ => keyword.name() == self.as_str(),
        }
    }

    /// Whether it surely is this short text.
    #[inline(always)]
    pub fn is_short(&self, text: &ShortText) -> bool
        ensures { IsTrue result → text_view self.now ≡ short_text text.now }
    {
        match self {
            SmallText::Short(own) => own.is_same(text),
            _ => false,
        }
    }

    /// Whether it surely is the other one, as short texts are told that are the same.
    #[inline(always)]
    pub fn is_surely(&self, other: &SmallText) -> bool
        ensures { IsTrue result → text_view self.now ≡ text_view other.now }
    {
        match other {
            SmallText::Short(short) => self.is_short(short),
            _ => false,
        }
    }

    /// The text, where it is short and doesn't stand as a keyword.
    #[inline(always)]
    pub fn short(&self) -> Option<&ShortText>
        ensures { IfSome result (λ s. short_text s.now ≡ text_view self.now) }
    {
        match self {
            SmallText::Short(short) => Some(short),
            _ => None,
        }
    }

    /// How it stands to the other, byte by byte. Short texts that are the same are told without a call.
    #[inline(always)]
    pub fn compare(&self, other: &SmallText) -> Ordering
        ensures { result ≡ text_cmp self.now other.now }
    {
        match other {
            SmallText::Short(short) if self.is_short(short) => Ordering::Equal,
            _ => compare_names(self.as_str(), other.as_str()),
        }
    }

    /// The text.
    #[inline(always)]
    pub fn as_str(&self) -> &str
        ensures { result.now ≡ text_view self.now }
    {
        match self {
            SmallText::Short(short) => short.as_str(),
            _ => self.other_str(),
        }
    }

    // The text, however it stands. It is called apart, since most names are short and no keywords.
    #[inline(never)]
    fn other_str(&self) -> &str
        ensures { result.now ≡ text_view self.now }
    {
        match self {
            SmallText::Short(short) => short.as_str(),
            SmallText::Keyword(keyword) => keyword.name(),
            SmallText::Long(string) => string.as_str(),
        }
    }
}

// Whether two keywords have the same name.
#[inline(always)]
fn is_same_keyword(keyword: Keyword, other: Keyword) -> bool
    ensures { result ≡ same_text (row_of keyword).name (row_of other).name }
{
    keyword as usize == other as usize
}

impl PartialEq for SmallText {
    ghost eq = { λ s t. pointwise nat_eq (text_view s) (text_view t) };

    ghost laws = { on_per text_view (partial_equiv_from_equiv nat_list_eq_equiv) };

    fn eq(&self, other: &SmallText) -> bool {
        self.as_str() == other.as_str()
    }
}

impl Eq for SmallText {
    ghost laws = { on_equiv text_view nat_list_eq_equiv };
}

impl PartialOrd for SmallText {
    ghost partial_cmp = { λ s t. Some (slice_cmp nat_cmp (text_view s) (text_view t)) };

    ghost laws = { on_po text_view texts_po };

    fn partial_cmp(&self, other: &SmallText) -> Option<Ordering> {
        Some(self.cmp(other))
    }
}

impl Ord for SmallText {
    ghost cmp = { λ s t. slice_cmp nat_cmp (text_view s) (text_view t) };

    ghost total = { on_total text_view nat_list_cmp_total };

    ghost matches_partial_cmp = { λ s t. refl };

    ghost matches_eq = { λ s t. texts_ties (text_view s) (text_view t) };

    fn cmp(&self, other: &SmallText) -> Ordering {
        self.as_str().cmp(other.as_str())
    }
}
