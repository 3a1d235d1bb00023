//! Searches for the patterns of linked documents.

ghost use Rattle.std.specs.Prelude.{◌≡◌, Some, Contains, IfOk, IfSome, IsTrue, is_some};
ghost use Rattle.std.proofs.Props.{props};
ghost use Rattle.definitions.specs.Patterns.{has_match};
ghost use Rattle.definitions.specs.Schemas.{Schema};
ghost use Rattle.definitions.specs.Searches.{patterns_of};
ghost use Rattle.definitions.specs.Values.{Text};
ghost use Rattle.linker.specs.LinkedDocuments.{linked_schemas};
ghost use Rattle.linker.specs.PatternNumbers.{pattern_text};
ghost use Rattle.linker.specs.declared.linked.Linked.{Linked};
ghost use Rattle.json_doc.specs.NamedMembers.{name_text};
ghost use Rattle.keyword_plans.specs.ComparedIn.{compared_in};
ghost use Rattle.linker.specs.ValueSets.{value_set};
ghost use Rattle.keyword_plans.specs.Held.{AreHeld, IsHeld, number_of};
ghost use Rattle.keyword_plans.specs.NumberedPatterns.{IsNumbered};
ghost use Rattle.patterns.specs.HeldPatterns.{held_text};

use crate::compared_resources::ComparedResources;
use crate::numbered_pattern::NumberedPattern;
use crate::tuning::SHORT_PATTERN;
use linker::{Linked, PatternNumber};
use patterns::HeldPattern;
use std::alloc::{AllocError, Global};
use std::collections::BTreeMap;
use std::mem::replace;

/// The patterns of more than 64 bytes that an evaluation searched for in linked documents, by their numbers. They are held, so
/// that to search for one again doesn't look at its text.
///
/// Contracts see the documents that they stand in, by `searched_in`.
#[derive(Drop)]
pub struct Searches<'a> {
    alloc: Global,
    linked: &'a Linked,
    held: BTreeMap<(usize, usize), HeldPattern<'a>>,
    /// Memory for patterns with their numbers.
    numbered: Vec<NumberedPattern<'a>>,
    resources: ComparedResources<'a>,
    ghost right: { AreHeld linked.now held } by { Prim.hlevel props },
    ghost same: { compared_in resources ≡ linked } by { Prim.hlevel (props, value_set) },
}

impl<'a> Searches<'a> {
    ghost use Rattle.std.specs.Prelude.{[]};
    ghost use Rattle.keyword_plans.specs.SearchedIn.{searched_in};

    /// None yet. This takes no memory.
    pub fn new(alloc: Global, linked: &'a Linked) -> Searches<'a>
        ensures { searched_in result ≡ linked.entry }
    {
        Searches {
            alloc,
            linked,
            held: BTreeMap::new(alloc),
            numbered: Vec::new(alloc),
            resources: ComparedResources::new(linked),
        }
    }

    /// Memory for patterns with their numbers, to be given back.
    pub(crate) fn take_numbered(&mut self) -> Vec<NumberedPattern<'a>>
        ensures none { result.items ≡ [] }
        ensures linked { searched_in self.new ≡ searched_in self.old }
    {
        let mut numbered = replace(&mut self.numbered, Vec::new(self.alloc));
        numbered.clear();
        numbered
    }

    /// Keeps the memory of these for the next ones.
    pub(crate) fn give_back(&mut self, numbered: Vec<NumberedPattern<'a>>)
        ensures linked { searched_in self.new ≡ searched_in self.old }
    {
        self.numbered = numbered;
    }

    /// Whether a pattern with its number matches somewhere in the text (JSON Schema 2020-12 Core, 10.3.2.2). The only error is want
    /// of memory.
    #[inline(always)]
    pub(crate) fn matches(
        &mut self,
        pattern: &NumberedPattern<'_>,
        text: &str,
    ) -> Result<bool, AllocError>
        ensures ok { IsNumbered (searched_in self.old).now pattern.now
            → IfOk result (λ found. found ≡ has_match (name_text pattern.now.pattern) text.now) }
        ensures linked { searched_in self.new ≡ searched_in self.old }
    {
        if pattern.pattern.as_str().len() > SHORT_PATTERN {
            self.numbered(pattern.number, text)
        } else {
            is_numbered_match(self.alloc, self.linked, pattern.number, text)
        }
    }

    /// The allocator that they take memory from.
    pub(crate) fn allocator(&self) -> Global {
        self.alloc
    }

    /// Whether the pattern of a schema of the documents' resource with this URI matches somewhere in the text (JSON Schema 2020-12
    /// Validation, section 6.3.3). The only error is want of memory. Of a text that no schema has it answers for some pattern, or
    /// false.
    pub(crate) fn is_match(
        &mut self,
        resource: &str,
        pattern: &str,
        text: &str,
    ) -> Result<bool, AllocError>
        ensures ok { (s : Schema) → Contains (linked_schemas (searched_in self.old).now) s
            → s.resource ≡ resource.now → Contains (patterns_of s) pattern.now
            → IfOk result (λ found. found ≡ has_match pattern.now text.now) }
        ensures linked { searched_in self.new ≡ searched_in self.old }
    {
        match self.number(resource, pattern)? {
            Some(number) if pattern.len() > SHORT_PATTERN => self.numbered(number, text),
            Some(number) => is_numbered_match(self.alloc, self.linked, number, text),
            // Never: a schema of the resource has the pattern.
            None => Ok(false),
        }
    }

    /// The number of a pattern of a schema of the documents' resource with this URI. The only error is want of memory.
    #[inline(always)]
    pub(crate) fn number(
        &mut self,
        resource: &str,
        pattern: &str,
    ) -> Result<Option<PatternNumber>, AllocError>
        ensures text { (s : Schema) → Contains (linked_schemas (searched_in self.old).now) s
            → s.resource ≡ resource.now → Contains (patterns_of s) pattern.now
            → IfOk result (λ n. IfSome n
            (λ n. pattern_text (searched_in self.old).now n ≡ Some pattern.now)) }
        ensures there { (s : Schema) → Contains (linked_schemas (searched_in self.old).now) s
            → s.resource ≡ resource.now → IfOk result (λ n. IsTrue (is_some n)) }
        ensures linked { searched_in self.new ≡ searched_in self.old }
    {
        match self.resources.document(self.alloc, resource)? {
            Some(document) => Ok(self.linked.pattern_number(document, pattern)),
            None => Ok(None),
        }
    }

    // Whether the pattern of this number matches somewhere in the text.
    fn numbered(&mut self, number: PatternNumber, text: &str) -> Result<bool, AllocError>
        ensures ok { (pattern : Text)
            → pattern_text (searched_in self.old).now number ≡ Some pattern
            → IfOk result (λ found. found ≡ has_match pattern text.now) }
        ensures linked { searched_in self.new ≡ searched_in self.old }
    {
        match search_again(&mut self.held, self.alloc, number.parts(), text) {
            Some(found) => found,
            None => self.search_first(number, text),
        }
    }

    // Whether the pattern of this number, which isn't held yet and is from now on, matches somewhere in the text.
    fn search_first(&mut self, number: PatternNumber, text: &str) -> Result<bool, AllocError>
        ensures ok { (pattern : Text)
            → pattern_text (searched_in self.old).now number ≡ Some pattern
            → IfOk result (λ found. found ≡ has_match pattern text.now) }
        ensures linked { searched_in self.new ≡ searched_in self.old }
    {
        let mut pattern = hold(self.linked, number)?;
        let found = search(&mut pattern, self.alloc, text)?;
        self.held.insert(number.parts(), pattern)?;
        Ok(found)
    }
}

// Searches for the pattern of the number of these parts, where it is held.
fn search_again(
    held: &mut BTreeMap<(usize, usize), HeldPattern<'_>>,
    alloc: Global,
    parts: (usize, usize),
    text: &str,
) -> Option<Result<bool, AllocError>>
    ensures ok { (linked : Linked) (pattern : Text) → AreHeld linked held.old
        → pattern_text linked (number_of parts) ≡ Some pattern
        → IfSome result (λ r. IfOk r (λ found. found ≡ has_match pattern text.now)) }
    ensures held { (linked : Linked) → AreHeld linked held.old → AreHeld linked held.new }
{
    match held.get_mut(&parts) {
        Some(pattern) => Some(search(pattern, alloc, text)),
        None => None,
    }
}

// Whether the pattern matches somewhere in the text. It is called apart, since few patterns are long.
#[inline(never)]
fn search(pattern: &mut HeldPattern<'_>, alloc: Global, text: &str) -> Result<bool, AllocError>
    ensures ok { IfOk result (λ found. found ≡ has_match (held_text pattern.old) text.now) }
    ensures same { held_text pattern.new ≡ held_text pattern.old }
{
    pattern.matches(alloc, text)
}

// The pattern of this number, held. The error says that it can't be, which never is: nothing else holds it.
fn hold<'a>(linked: &'a Linked, number: PatternNumber) -> Result<HeldPattern<'a>, AllocError>
    ensures { IfOk result (IsHeld linked.entry.now number) }
{
    match linked.numbered_pattern(number) {
        Some(pattern) => match pattern.hold() {
            Some(pattern) => Ok(pattern),
            None => Err(AllocError),
        },
        None => Err(AllocError),
    }
}

// Whether the pattern of this number matches somewhere in the text.
#[inline(always)]
fn is_numbered_match(
    alloc: Global,
    linked: &Linked,
    number: PatternNumber,
    text: &str,
) -> Result<bool, AllocError>
    ensures { (pattern : Text) → pattern_text linked.now number ≡ Some pattern
        → IfOk result (λ found. found ≡ has_match pattern text.now) }
{
    match linked.numbered_pattern(number) {
        Some(built) => built.matches(alloc, text),
        // Never: the number is that of a pattern.
        None => Ok(false),
    }
}
