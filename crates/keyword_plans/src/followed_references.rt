//! What the references that were followed last name.

ghost use Rattle.std.specs.Prelude.{◌≡◌, ◌<◌, Contains, List, Some, IfOk, IfSome, option_map};
ghost use Rattle.std.specs.List.{All};
ghost use Rattle.std.proofs.Props.{props};
ghost use Rattle.definitions.specs.Resolution.{target_uri};
ghost use Rattle.definitions.specs.Schemas.{Schema};
ghost use Rattle.definitions.specs.Targets.{schema_with_dynamic_anchor, target};
ghost use Rattle.definitions.specs.Values.{Text};
ghost use Rattle.linker.specs.LinkedDocuments.{linked_schemas};
ghost use Rattle.linker.specs.declared.linked.Linked.{Linked};
ghost use Rattle.linker.specs.NumberedTexts.{texts_of_linked};
ghost use Rattle.linker.specs.ReferenceNumbers.{reference_pair};
ghost use Rattle.keyword_plans.specs.ComparedIn.{compared_in};
ghost use Rattle.keyword_plans.specs.Followed.{AreFollowed, HasFollowedAnchor, IsFollowed, IsNamed, Refers, target_view};
ghost use Rattle.linker.specs.ValueSets.{value_set};

use crate::compared_resources::ComparedResources;
use crate::target::Target;
use crate::tuning::{APART, MOST_SHORT, SHORT_REFERENCE};
use linker::{Linked, ReferenceNumber};
use std::alloc::{AllocError, Global};
use std::collections::BTreeMap;

/// What a reference names first (JSON Schema 2020-12 Core, 8.2.3).
#[derive(Drop)]
pub(crate) struct Followed<'a> {
    /// The schema.
    pub(crate) target: Target<'a>,
    /// Its dynamic anchor, where the reference names it by that (8.2.3.2).
    pub(crate) anchor: Option<&'a str>,
}

/// A reference that was followed, by its number, and what it names.
#[derive(Drop)]
struct FollowedReference<'a> {
    number: ReferenceNumber,
    named: Option<Followed<'a>>,
}

/// What the references that were followed in an evaluation name: of the short ones sixty-four at most, each in the place that
/// the numbers of its document and of its text tell, of which the last that was followed there is kept; of the others all,
/// since to find anew what one names takes as long as its text is.
///
/// To follow one of them again takes no memory. Contracts see the documents that they stand in, by `followed_in`.
#[derive(Drop)]
pub(crate) struct FollowedReferences<'a> {
    linked: &'a Linked,
    short: Vec<Option<FollowedReference<'a>>>,
    long: BTreeMap<(usize, usize, usize), FollowedReference<'a>>,
    resources: ComparedResources<'a>,
    ghost same: { compared_in resources ≡ linked } by { Prim.hlevel (props, value_set) },
    ghost short_right: { All (λ o. IfSome o (IsFollowed linked.now)) short.items } by { Prim.hlevel (props, value_set) },
    ghost long_right: { AreFollowed linked.now long } by { Prim.hlevel (props, value_set) },
}

impl<'a> FollowedReferences<'a> {
    ghost use Rattle.keyword_plans.specs.FollowedIn.{followed_in};
    ghost use Rattle.keyword_plans.specs.LinkedResources.{HasAnchor, HasNumber, HasResource};
    ghost use Rattle.linker.specs.OpenedSchemas.{Opens};

    /// None yet. This takes no memory.
    pub(crate) fn new(alloc: Global, linked: &'a Linked) -> FollowedReferences<'a>
        ensures { followed_in result ≡ linked.entry }
    {
        FollowedReferences {
            linked,
            short: Vec::new(alloc),
            long: BTreeMap::new(alloc),
            resources: ComparedResources::new(linked),
        }
    }

    /// The schema that a reference of the documents' schemas names (JSON Schema 2020-12 Core, section 8.2.3): the reference's
    /// text, and the URI of the resource that it stands in. The only error is want of memory.
    pub(crate) fn target(
        &mut self,
        alloc: Global,
        resource: &'a str,
        reference: &'a str,
    ) -> Result<Option<Target<'a>>, AllocError>
        ensures ok { (s : Schema)
            → Refers (followed_in self.old).now s resource.now reference.now → IfOk result
            (λ t. option_map target_view t ≡ target (linked_schemas (followed_in self.old).now)
            (target_uri resource.now reference.now)) }
        ensures linked { followed_in self.new ≡ followed_in self.old }
    {
        match self.named(alloc, resource, reference)? {
            Some(named) => Ok(Some(named.target)),
            None => Ok(None),
        }
    }

    /// What a reference of the documents' schemas names first, by its text and the URI of the resource that it stands in. The
    /// only error is want of memory.
    pub(crate) fn named(
        &mut self,
        alloc: Global,
        resource: &'a str,
        reference: &'a str,
    ) -> Result<Option<Followed<'a>>, AllocError>
        ensures ok { (s : Schema)
            → Refers (followed_in self.old).now s resource.now reference.now → IfOk result
            (λ n. IsNamed (linked_schemas (followed_in self.old).now)
            (target_uri resource.now reference.now) n) }
        ensures anchored { IfOk result (HasFollowedAnchor (followed_in self.old).now) }
        ensures linked { followed_in self.new ≡ followed_in self.old }
    {
        match self.number(alloc, resource, reference)? {
            Some(number) => self.numbered(alloc, number),
            // Never: some schema has the reference.
            None => named_first(alloc, self.linked, None, resource, reference),
        }
    }

    // The number of a reference of theirs.
    #[inline(always)]
    fn number(
        &mut self,
        alloc: Global,
        resource: &str,
        reference: &str,
    ) -> Result<Option<ReferenceNumber>, AllocError>
        ensures ok { (s : Schema)
            → Refers (followed_in self.old).now s resource.now reference.now
            → IfOk result (λ n. IfSome n (λ n. reference_pair (followed_in self.old).now n
            ≡ Some (resource.now, reference.now))) }
        ensures linked { followed_in self.new ≡ followed_in self.old }
    {
        match self.resources.document(alloc, resource)? {
            Some(document) => Ok(self.linked.reference_number(document, resource, reference)),
            None => Ok(None),
        }
    }

    /// The URI of the resource that a schema of the documents opens by this `$id`, where the resource around it has this URI (section
    /// 8.2.1). The only error is want of memory. Of texts that open no resource of theirs it answers some text.
    pub(crate) fn opened(
        &mut self,
        alloc: Global,
        around: &str,
        id: &str,
    ) -> Result<&'a str, AllocError>
        ensures ok { (p s : Schema) → Contains (linked_schemas (followed_in self.old).now) p
            → p.resource ≡ around.now → Opens (followed_in self.old).now s around.now id.now
            → IfOk result (λ uri. uri.now ≡ s.resource) }
        ensures linked { followed_in self.new ≡ followed_in self.old }
    {
        match self.linked.resource_identified(id) {
            Some(uri) => Ok(uri),
            None => self.resources.opened(alloc, around, id),
        }
    }

    /// The number of a dynamic anchor of the documents, where their texts have numbers. The only error is want of memory.
    pub(crate) fn anchor_number(
        &mut self,
        alloc: Global,
        name: &str,
    ) -> Result<Option<usize>, AllocError>
        ensures ok { HasAnchor (followed_in self.old).now name.now → IfOk result
            (HasNumber (texts_of_linked (followed_in self.old).now) name.now) }
        ensures linked { followed_in self.new ≡ followed_in self.old }
    {
        self.resources.anchor_number(alloc, name)
    }

    /// The schema with this dynamic anchor, which one of the documents' resources has, in the resource with this URI (section
    /// 8.2.2). The only error is want of memory.
    pub(crate) fn anchored(
        &mut self,
        alloc: Global,
        uri: &str,
        name: &str,
    ) -> Result<Option<Target<'a>>, AllocError>
        ensures ok { HasResource (followed_in self.old).now uri.now
            → HasAnchor (followed_in self.old).now name.now
            → IfOk result (λ t. option_map target_view t
            ≡ schema_with_dynamic_anchor (linked_schemas (followed_in self.old).now)
            uri.now name.now) }
        ensures linked { followed_in self.new ≡ followed_in self.old }
    {
        self.resources.anchored(alloc, uri, name)
    }

    // What the reference of this number names first.
    fn numbered(
        &mut self,
        alloc: Global,
        number: ReferenceNumber,
    ) -> Result<Option<Followed<'a>>, AllocError>
        ensures ok { (resource text : Text)
            → reference_pair (followed_in self.old).now number ≡ Some (resource, text)
            → IfOk result (λ n. IsNamed (linked_schemas (followed_in self.old).now)
            (target_uri resource text) n) }
        ensures anchored { IfOk result (HasFollowedAnchor (followed_in self.old).now) }
        ensures linked { followed_in self.new ≡ followed_in self.old }
    {
        match self.find(number) {
            Some(followed) => Ok(again(&followed.named)?),
            None => self.follow(alloc, number),
        }
    }

    // The one of this number, where it is kept.
    fn find(&self, number: ReferenceNumber) -> Option<&FollowedReference<'a>>
        ensures named { (resource text : Text)
            → reference_pair (followed_in self.now).now number ≡ Some (resource, text)
            → IfSome result (λ f. IsNamed (linked_schemas (followed_in self.now).now)
            (target_uri resource text) f.now.named) }
        ensures anchored { IfSome result
            (λ f. HasFollowedAnchor (followed_in self.now).now f.now.named) }
    {
        match self.short.get(place_of(number)) {
            Some(Some(followed)) if followed.number.is(number) => Some(followed),
            _ => self.find_long(number),
        }
    }

    // The one of this number among those that aren't short, where it is kept.
    fn find_long(&self, number: ReferenceNumber) -> Option<&FollowedReference<'a>>
        ensures named { (resource text : Text)
            → reference_pair (followed_in self.now).now number ≡ Some (resource, text)
            → IfSome result (λ f. IsNamed (linked_schemas (followed_in self.now).now)
            (target_uri resource text) f.now.named) }
        ensures anchored { IfSome result
            (λ f. HasFollowedAnchor (followed_in self.now).now f.now.named) }
    {
        match self.long.get(&number.parts()) {
            Some(followed) if followed.number.is(number) => Some(followed),
            _ => None,
        }
    }

    // One that isn't kept, which is kept from now on.
    fn follow(
        &mut self,
        alloc: Global,
        number: ReferenceNumber,
    ) -> Result<Option<Followed<'a>>, AllocError>
        ensures ok { (resource text : Text)
            → reference_pair (followed_in self.old).now number ≡ Some (resource, text)
            → IfOk result (λ n. IsNamed (linked_schemas (followed_in self.old).now)
            (target_uri resource text) n) }
        ensures anchored { IfOk result (HasFollowedAnchor (followed_in self.old).now) }
        ensures linked { followed_in self.new ≡ followed_in self.old }
    {
        self.resources.expect(self.linked.target_document(number));
        match self.linked.reference(number) {
            Some((resource, reference)) => {
                let named = named_first(alloc, self.linked, Some(number), resource, reference)?;
                let followed = FollowedReference {
                    number,
                    named: again(&named)?,
                };
                if is_short(resource, reference) {
                    self.keep_short(followed)?;
                } else {
                    self.keep_long(followed)?;
                }
                Ok(named)
            }
            // Never: the number is that of a reference.
            None => Ok(None),
        }
    }

    // In the place of its number.
    fn keep_short(&mut self, followed: FollowedReference<'a>) -> Result<(), AllocError>
        requires { IsFollowed (followed_in self.old).now followed }
        ensures { followed_in self.new ≡ followed_in self.old }
    {
        let place = place_of(followed.number);
        while self.short.len() <= place {
            self.short.push(None)?;
        }
        self.short[place] = Some(followed);
        Ok(())
    }

    // Beside all others that aren't short.
    fn keep_long(&mut self, followed: FollowedReference<'a>) -> Result<(), AllocError>
        requires { IsFollowed (followed_in self.old).now followed }
        ensures { followed_in self.new ≡ followed_in self.old }
    {
        self.long.insert(followed.number.parts(), followed)?;
        Ok(())
    }
}

// Whether a reference in the resource of this URI is short.
fn is_short(resource: &str, reference: &str) -> bool {
    resource.len() <= SHORT_REFERENCE && reference.len() <= SHORT_REFERENCE - resource.len()
}

// The place of a short reference among those that are kept. Those of one document stand side by side, and those of others apart.
fn place_of(number: ReferenceNumber) -> usize
    ensures { result < 64 }
{
    number
        .document()
        .wrapping_mul(APART)
        .wrapping_add(number.text())
        % MOST_SHORT
}

// What the documents have under the reference, which has this number, where one is given.
fn named_first<'a>(
    alloc: Global,
    linked: &'a Linked,
    number: Option<ReferenceNumber>,
    resource: &str,
    reference: &str,
) -> Result<Option<Followed<'a>>, AllocError>
    ensures named { IfOk result (λ n. IsNamed (linked_schemas linked.entry.now)
        (target_uri resource.now reference.now) n) }
    ensures anchored { IfOk result (HasFollowedAnchor linked.entry.now) }
{
    match linked.named(alloc, number, resource, reference)? {
        Some(named) => Ok(Some(Followed {
            target: Target::of(alloc, named.target)?,
            anchor: named.anchor,
        })),
        None => Ok(None),
    }
}

// A copy of what a reference names first, if it names anything. The only error is want of memory.
fn again<'a>(named: &Option<Followed<'a>>) -> Result<Option<Followed<'a>>, AllocError>
    ensures named { (table : List Schema) (text : Text) → IsNamed table text named.now
        → IfOk result (λ n. IsNamed table text n) }
    ensures anchored { (l : Linked) → HasFollowedAnchor l named.now
        → IfOk result (HasFollowedAnchor l) }
{
    match named {
        Some(followed) => Ok(Some(Followed {
            target: followed.target.again()?,
            anchor: followed.anchor,
        })),
        None => Ok(None),
    }
}
