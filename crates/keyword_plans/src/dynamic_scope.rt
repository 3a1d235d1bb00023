//! The dynamic scope, and what references name in it.

ghost use Rattle.std.specs.Prelude.{◌≡◌, ◌<◌, ◌++◌, [], ◌∷◌, Contains, List, Some, IfOk, IfSome, OnOk, is_none, length, map, option_map, true, unwrap_or};
ghost use Rattle.std.specs.List.{All};
ghost use Rattle.std.proofs.Props.{props};
ghost use Rattle.definitions.specs.Resolution.{target_uri};
ghost use Rattle.definitions.specs.Schemas.{Schema};
ghost use Rattle.definitions.specs.Targets.{dynamic_target, outermost, target};
ghost use Rattle.definitions.specs.Values.{Text};
ghost use Rattle.linker.specs.LinkedDocuments.{linked_schemas};
ghost use Rattle.linker.specs.NumberedTexts.{texts_of_linked};
ghost use Rattle.linker.specs.declared.linked.Linked.{Linked};
ghost use Rattle.keyword_plans.specs.Followed.{HasFollowedAnchor, Refers, followed_in_scope, target_view};
ghost use Rattle.keyword_plans.specs.FollowedIn.{followed_in};
ghost use Rattle.keyword_plans.specs.LinkedResources.{HasAnchor, HasNumber, HasResources};
ghost use Rattle.linker.specs.OpenedSchemas.{Opens};
ghost use Rattle.keyword_plans.specs.Searched.{IsSearched};
ghost use Rattle.linker.specs.ValueSets.{value_set};

use crate::followed_references::{Followed, FollowedReferences};
use crate::target::{Target, again};
use crate::tuning::KEPT_ANCHORS;
use linker::Linked;
use std::alloc::{AllocError, Global};

/// A dynamic anchor that was looked for in the scope: so many resources are passed, from the outermost on, that don't have it;
/// and the schema with the anchor in the next one, where that has it.
#[derive(Drop)]
struct SearchedAnchor<'a> {
    name: &'a str,
    // Its number, where the texts of the documents had numbers already.
    number: Option<usize>,
    passed: usize,
    found: Option<Target<'a>>,
}

/// The dynamic scope (JSON Schema 2020-12 Core, section 7.1), in which references are followed.
///
/// It keeps what the references that were followed last name, and, of sixteen dynamic anchors at most, how far the scope was
/// searched for them: a resource that was passed isn't looked at again as long as it stays, whatever follows it.
///
/// Contracts see the URIs of its resources, the outermost first, by `scope_uris`, and the documents that the references stand
/// in, by `scope_documents`.
#[derive(Drop)]
pub struct DynamicScope<'a> {
    references: FollowedReferences<'a>,
    uris: Vec<&'a str>,
    searched: Vec<SearchedAnchor<'a>>,
    // Where the one stands that gives way, once there are as many as are kept.
    oldest: usize,
    ghost within: { oldest < 16 },
    ghost right: { All (IsSearched (followed_in references).now
        (map (λ uri. uri.now) uris.items)) searched.items } by { Prim.hlevel (props, value_set) },
}

impl<'a> SearchedAnchor<'a> {
    // So many resources are left.
    fn cut(&mut self, left: usize)
        ensures { (l : Linked) (older : List Text) (uri : Text) → left ≡ length older
            → IsSearched l (older ++ uri ∷ []) self.old → IsSearched l older self.new }
    {
        if self.passed < left {
            return;
        }
        self.passed = left;
        self.found = None;
    }

    // Whether it surely is the anchor of this name, which has the number: one that was searched for before the texts had numbers
    // is searched for once more.
    fn is(&self, name: &str, number: Option<usize>) -> bool
        ensures { (texts : List Text) → HasNumber texts self.now.name.now self.now.number
            → HasNumber texts name.now number → result ≡ true
            → self.now.name.now ≡ name.now }
    {
        match (self.number, number) {
            (Some(own), Some(other)) => own == other,
            (None, None) => self.name == name,
            _ => false,
        }
    }
}

impl<'a> DynamicScope<'a> {
    ghost use Rattle.keyword_plans.specs.ScopeViews.{scope_documents, scope_uris};

    /// The scope that has no resource yet. This takes no memory.
    pub fn new(alloc: Global, linked: &'a Linked) -> DynamicScope<'a>
        ensures documents { scope_documents result ≡ linked.entry }
        ensures uris { scope_uris result ≡ [] }
    {
        DynamicScope {
            references: FollowedReferences::new(alloc, linked),
            uris: Vec::new(alloc),
            searched: Vec::new(alloc),
            oldest: 0,
        }
    }

    /// The URIs of its resources, the outermost first.
    pub fn uris(&self) -> &[&'a str]
        ensures { map (λ uri. uri.now) result.now ≡ scope_uris self.now }
    {
        &self.uris
    }

    /// A schema object of the resource with this URI is being applied. The only error is want of memory.
    pub fn push(&mut self, uri: &'a str) -> Result<(), AllocError>
        ensures pushed { OnOk result (scope_uris self.new ≡ scope_uris self.old ++ uri.now ∷ []) }
        ensures documents { scope_documents self.new ≡ scope_documents self.old }
    {
        self.uris.push(uri)?;
        Ok(())
    }

    /// It has been applied.
    pub fn pop(&mut self)
        ensures popped { (older : List Text) (uri : Text) → scope_uris self.old ≡ older ++ uri ∷ []
            → scope_uris self.new ≡ older }
        ensures documents { scope_documents self.new ≡ scope_documents self.old }
    {
        if self.uris.pop().is_some() {
            cut(self.searched.as_mut_slice(), self.uris.len());
        }
    }

    /// The URI of the resource that a schema of the documents opens by this `$id` (section 8.2.1), where the resource around it, which
    /// is one of theirs, has this URI. The only error is want of memory. Of other texts it answers some text.
    pub fn resource_opened(
        &mut self,
        alloc: Global,
        around: &str,
        id: &str,
    ) -> Result<&'a str, AllocError>
        ensures ok { (p s : Schema) → Contains (linked_schemas (scope_documents self.old).now) p
            → p.resource ≡ around.now → Opens (scope_documents self.old).now s around.now id.now
            → IfOk result (λ uri. uri.now ≡ s.resource) }
        ensures uris { scope_uris self.new ≡ scope_uris self.old }
        ensures documents { scope_documents self.new ≡ scope_documents self.old }
    {
        self.references.opened(alloc, around, id)
    }

    /// The schema that a reference of the documents' schemas names (section 8.2.3): the reference's text, and the URI of the resource that it stands in.
    /// The only error is want of memory.
    pub fn target(
        &mut self,
        alloc: Global,
        resource: &'a str,
        reference: &'a str,
    ) -> Result<Option<Target<'a>>, AllocError>
        ensures ok { (s : Schema)
            → Refers (scope_documents self.old).now s resource.now reference.now → IfOk result
            (λ t. option_map target_view t ≡ target (linked_schemas (scope_documents self.old).now)
            (target_uri resource.now reference.now)) }
        ensures uris { scope_uris self.new ≡ scope_uris self.old }
        ensures documents { scope_documents self.new ≡ scope_documents self.old }
    {
        self.references.target(alloc, resource, reference)
    }

    /// The schema that a dynamic reference of theirs names here (section 8.2.3.2), where the scope's resources are theirs. The only
    /// error is want of memory.
    pub fn dynamic_target(
        &mut self,
        alloc: Global,
        resource: &'a str,
        reference: &'a str,
    ) -> Result<Option<Target<'a>>, AllocError>
        ensures ok { (s : Schema)
            → Refers (scope_documents self.old).now s resource.now reference.now
            → HasResources (scope_documents self.old).now (scope_uris self.old) → IfOk result
            (λ t. option_map target_view t
            ≡ dynamic_target (linked_schemas (scope_documents self.old).now) (scope_uris self.old)
            (target_uri resource.now reference.now)) }
        ensures uris { scope_uris self.new ≡ scope_uris self.old }
        ensures documents { scope_documents self.new ≡ scope_documents self.old }
    {
        match self.references.named(alloc, resource, reference)? {
            Some(first) => Ok(Some(self.in_scope(alloc, first)?)),
            None => Ok(None),
        }
    }

    // The schema that a dynamic reference names in this scope, of what it names first.
    fn in_scope(&mut self, alloc: Global, first: Followed<'a>) -> Result<Target<'a>, AllocError>
        requires { HasFollowedAnchor (scope_documents self.old).now (Some first) }
        ensures ok { HasResources (scope_documents self.old).now (scope_uris self.old)
            → IfOk result (λ t. target_view t
            ≡ followed_in_scope (linked_schemas (scope_documents self.old).now)
            (scope_uris self.old) first.entry) }
        ensures uris { scope_uris self.new ≡ scope_uris self.old }
        ensures documents { scope_documents self.new ≡ scope_documents self.old }
    {
        match first.anchor {
            Some(name) => self.outermost_or(alloc, name, first.target),
            None => Ok(first.target),
        }
    }

    // The schema with this dynamic anchor, which one of the documents' resources has, in the outermost resource that has it, or
    // else this one.
    fn outermost_or(
        &mut self,
        alloc: Global,
        name: &'a str,
        first: Target<'a>,
    ) -> Result<Target<'a>, AllocError>
        requires { HasAnchor (scope_documents self.old).now name.now }
        ensures ok { HasResources (scope_documents self.old).now (scope_uris self.old)
            → IfOk result (λ t. target_view t
            ≡ outermost (linked_schemas (scope_documents self.old).now) (scope_uris self.old)
            name.now (target_view first.entry)) }
        ensures uris { scope_uris self.new ≡ scope_uris self.old }
        ensures documents { scope_documents self.new ≡ scope_documents self.old }
    {
        match self.outermost(alloc, name)? {
            Some(found) => Ok(found),
            None => Ok(first),
        }
    }

    // The schema with this dynamic anchor, which one of the documents' resources has, in the outermost resource of the scope that
    // has it; none where none of the scope has it.
    fn outermost(&mut self, alloc: Global, name: &'a str) -> Result<Option<Target<'a>>, AllocError>
        requires { HasAnchor (scope_documents self.old).now name.now }
        ensures ok { HasResources (scope_documents self.old).now (scope_uris self.old)
            → IfOk result
            (λ t. (first : Schema) → unwrap_or (option_map target_view t) first
            ≡ outermost (linked_schemas (scope_documents self.old).now) (scope_uris self.old)
            name.now first) }
        ensures uris { scope_uris self.new ≡ scope_uris self.old }
        ensures documents { scope_documents self.new ≡ scope_documents self.old }
    {
        let number = self.references.anchor_number(alloc, name)?;
        let begun = self.begun(name, number)?;
        if begun.found.is_some() {
            return Ok(begun.found);
        }
        let searched = search(alloc, &mut self.references, &self.uris, begun)?;
        let found = again(&searched.found)?;
        self.keep(searched)?;
        Ok(found)
    }

    // How far the scope was searched for this dynamic anchor.
    fn begun(&self, name: &'a str, number: Option<usize>) -> Result<SearchedAnchor<'a>, AllocError>
        requires anchor { HasAnchor (scope_documents self.now).now name.now }
        requires number { HasNumber (texts_of_linked
            (scope_documents self.now).now) name.now number }
        ensures right { IfOk result
            (λ s. IsSearched (scope_documents self.now).now (scope_uris self.now) s) }
        ensures name { IfOk result (λ s. s.name.now ≡ name.now) }
    {
        for searched in &self.searched {
            if searched.is(name, number) {
                return Ok(SearchedAnchor {
                    name,
                    number,
                    passed: searched.passed,
                    found: again(&searched.found)?,
                });
            }
        }
        Ok(SearchedAnchor {
            name,
            number,
            passed: 0,
            found: None,
        })
    }

    // In place of the one of the same anchor, or else of the oldest, where there are as many as are kept.
    fn keep(&mut self, searched: SearchedAnchor<'a>) -> Result<(), AllocError>
        requires { IsSearched (scope_documents self.old).now (scope_uris self.old) searched }
        ensures uris { scope_uris self.new ≡ scope_uris self.old }
        ensures documents { scope_documents self.new ≡ scope_documents self.old }
    {
        match position(&self.searched, &searched) {
            Some(at) => self.searched[at] = searched,
            None => {
                if self.searched.len() < KEPT_ANCHORS {
                    self.searched.push(searched)?;
                } else {
                    self.searched[self.oldest] = searched;
                    self.oldest = (self.oldest + 1) % KEPT_ANCHORS;
                }
            }
        }
        Ok(())
    }
}

// Where one of the same anchor stands.
fn position(searched: &[SearchedAnchor<'_>], other: &SearchedAnchor<'_>) -> Option<usize>
    ensures { IfSome result (λ at. at < length searched.now) }
{
    for (at, one) in searched.iter().enumerate() {
        if one.is(other.name, other.number) {
            return Some(at);
        }
    }
    None
}

// The scope has been searched to the outermost resource that has the anchor, or to its end.
fn search<'a>(
    alloc: Global,
    references: &mut FollowedReferences<'a>,
    uris: &[&'a str],
    begun: SearchedAnchor<'a>,
) -> Result<SearchedAnchor<'a>, AllocError>
    requires { IsSearched (followed_in references.old).now (map (λ uri. uri.now) uris.now) begun }
    ensures right { IfOk result (IsSearched (followed_in references.old).now
        (map (λ uri. uri.now) uris.entry.now)) }
    ensures name { IfOk result (λ s. s.name.now ≡ begun.entry.name.now) }
    ensures whole { IfOk result
        (λ s. is_none s.found ≡ true → s.passed ≡ length uris.entry.now) }
    ensures linked { followed_in references.new ≡ followed_in references.old }
{
    let name = begun.name;
    let number = begun.number;
    for passed in begun.passed..uris.len() {
        let found = references.anchored(alloc, uris[passed], name)?;
        if found.is_some() {
            return Ok(SearchedAnchor {
                name,
                number,
                passed,
                found,
            });
        }
    }
    Ok(SearchedAnchor {
        name,
        number,
        passed: uris.len(),
        found: None,
    })
}

// So many resources are left, of which no more are passed.
fn cut(searched: &mut [SearchedAnchor<'_>], left: usize)
    ensures { (l : Linked) (older : List Text) (uri : Text) → left ≡ length older
        → All (IsSearched l (older ++ uri ∷ [])) searched.old
        → All (IsSearched l older) searched.new }
{
    for one in searched.iter_mut() {
        one.cut(left);
    }
}
