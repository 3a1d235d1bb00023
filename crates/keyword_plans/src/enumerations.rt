//! The values of long `enum`s, sorted.

ghost use Rattle.std.specs.Prelude.{◌≡◌, Some, IfOk, IfSome, Contains, codes, length, option_map};
ghost use Rattle.std.specs.Cmp.Lexicographic.{slice_cmp};
ghost use Rattle.std.specs.List.{All, HoldsAt};
ghost use Rattle.std.specs.List.Sorted.{IsSearchInRange};
ghost use Rattle.std.specs.Ordering.{nat_cmp, ordering_then};
ghost use Rattle.std.proofs.Props.{props};
ghost use Rattle.definitions.specs.Assertions.{enum_of, holds};
ghost use Rattle.definitions.specs.Schemas.{Schema, identity};
ghost use Rattle.definitions.specs.Values.{Value, get};
ghost use Rattle.json_doc.specs.Docs.{value};
ghost use Rattle.linker.specs.LinkedDocuments.{linked_schemas};
ghost use Rattle.locations.specs.Steps.{tokens};
ghost use Rattle.value_order.specs.Searched.{has_value};
ghost use Rattle.keyword_plans.specs.Enumerated.{IsEnumerated, IsPlacedAt};
ghost use Rattle.keyword_plans.specs.Places.{steps_order};
ghost use Rattle.applicators.specs.Subjects.{subject_value};

use crate::places::{compare_steps, pointer_to};
use crate::tuning::{FEW_VALUES, MOST_WALKED};
use crate::verdict::holds_of;
use applicators::Subject;
use assertions::Assertion;
use json_doc::Doc;
use linker::Linked;
use locations::Step;
use std::alloc::{AllocError, Global};
use std::cmp::Ordering;
use value_order::SortedValues;

/// The values of the `enum` of the schema with this identity: the URI of its resource, and the steps from that resource's root.
#[derive(Drop)]
struct Enumeration<'a> {
    resource: &'a str,
    steps: Vec<Step<'a>>,
    values: SortedValues<'a>,
}

impl<'a> Enumeration<'a> {
    // How the identity stands to this one.
    fn compare(&self, resource: &str, steps: &[Step<'_>]) -> Ordering
        ensures { result ≡ ordering_then (slice_cmp nat_cmp self.now.resource.now resource.now)
            (steps_order self.now.steps.items steps.now) }
    {
        match self.resource.cmp(resource) {
            Ordering::Equal => compare_steps(&self.steps, steps),
            order => order,
        }
    }

    // Whether one of the values is equal to the subject. The only error is want of memory, which a name alone takes.
    fn contains(&self, alloc: Global, subject: Subject<'_>) -> Result<bool, AllocError>
        ensures { IfOk result
            (λ b. b ≡ has_value self.now.values (subject_value subject.entry)) }
    {
        match subject {
            Subject::Value(doc) => Ok(self.values.contains(doc)),
            Subject::Name(name) => {
                let name = Doc::string(alloc, name.as_str())?;
                Ok(self.values.contains(&name))
            }
        }
    }
}

/// The values of the long `enum`s that an evaluation met, sorted, so that one that is applied often is searched in a time that
/// grows with the logarithm of its length.
///
/// Contracts see the documents that they stand in, by `enumerated_in`.
#[derive(Drop)]
pub struct Enumerations<'a> {
    linked: &'a Linked,
    // In the order of their identities.
    sorted: Vec<Enumeration<'a>>,
    // How many more values may be looked at one after the other.
    left: usize,
    ghost right: { All (IsEnumerated linked.now) sorted.items } by { Prim.hlevel props },
}

impl<'a> Enumerations<'a> {
    ghost use Rattle.keyword_plans.specs.EnumeratedIn.{enumerated_in};

    /// None yet. This takes no memory.
    pub fn new(alloc: Global, linked: &'a Linked) -> Enumerations<'a>
        ensures { enumerated_in result ≡ linked.entry }
    {
        Enumerations {
            linked,
            sorted: Vec::new(alloc),
            left: MOST_WALKED,
        }
    }

    /// Whether `enum` with these values holds of the subject (JSON Schema 2020-12 Validation, section 6.1.2), where they are
    /// those of the schema with this identity: the URI of its resource, and the steps from that resource's root. Of another
    /// schema the answer tells nothing. The only error is want of memory.
    pub fn holds(
        &mut self,
        alloc: Global,
        resource: &'a str,
        steps: &[Step<'a>],
        values: &Doc,
        subject: Subject<'_>,
    ) -> Result<bool, AllocError>
        ensures ok { (s : Schema) → Contains (linked_schemas (enumerated_in self.old).now) s
            → identity s ≡ (resource.now, tokens steps.now)
            → get (codes "enum") s.value ≡ Some (value values.now)
            → IfOk result
            (λ b. b ≡ holds enum_of (value values.now) (subject_value subject.entry)) }
        ensures linked { enumerated_in self.new ≡ enumerated_in self.old }
    {
        match self.position(resource, steps) {
            Ok(at) => Ok(self.sorted[at].contains(alloc, subject)?),
            Err(at) => match self.enumeration(alloc, resource, steps)? {
                Some(enumeration) => {
                    let found = enumeration.contains(alloc, subject)?;
                    self.sorted.insert(at, enumeration)?;
                    Ok(found)
                }
                None => Ok(holds_of(alloc, Assertion::EnumOf, values, subject)?),
            },
        }
    }

    // Where the values of the schema with this identity stand, or where they would be put.
    fn position(&self, resource: &str, steps: &[Step<'_>]) -> Result<usize, usize>
        ensures bound { IsSearchInRange result (length self.now.sorted.items) }
        ensures found { IfOk result
            (HoldsAt (IsPlacedAt resource.now (tokens steps.now)) self.now.sorted.items) }
    {
        self.sorted
            .binary_search_by(|enumeration| enumeration.compare(resource, steps))
    }

    /// Whether these values of an `enum` are to be looked at one after the other, which is counted where they are many.
    pub fn may_walk(&mut self, values: &Doc) -> bool
        ensures { enumerated_in self.new ≡ enumerated_in self.old }
    {
        let count = count_of(values);
        if count <= FEW_VALUES {
            return true;
        }
        if count > self.left {
            return false;
        }
        self.left -= count;
        true
    }

    // The values of the schema with this identity, sorted, where these documents have one with a list of them. The only error
    // is want of memory.
    fn enumeration(
        &self,
        alloc: Global,
        resource: &'a str,
        steps: &[Step<'a>],
    ) -> Result<Option<Enumeration<'a>>, AllocError>
        ensures right { IfOk result (λ o. IfSome o (IsEnumerated self.now.linked.now)) }
        ensures placed { IfOk result
            (λ o. IfSome o (IsPlacedAt resource.now (tokens steps.now))) }
    {
        let Some(values) = self.values(alloc, resource, steps)? else {
            return Ok(None);
        };
        match sorted(alloc, values)? {
            Some(values) => Ok(Some(Enumeration {
                resource,
                steps: Vec::from_slice(alloc, steps)?,
                values,
            })),
            None => Ok(None),
        }
    }

    // The value of the `enum` of the schema with this identity, if these documents have one. The only error is want of memory.
    fn values(
        &self,
        alloc: Global,
        resource: &str,
        steps: &[Step<'_>],
    ) -> Result<Option<&'a Doc>, AllocError>
        ensures { (s : Schema) → Contains (linked_schemas self.now.linked.now) s
            → identity s ≡ (resource.now, tokens steps.now)
            → IfOk result (λ o. option_map (λ d. value d.now) o ≡ get (codes "enum") s.value) }
    {
        match self
            .linked
            .schema_of(alloc, resource, pointer_to(alloc, steps)?)?
        {
            Some(located) => Ok(located.schema.get("enum")),
            None => Ok(None),
        }
    }
}

// The values of an `enum`, sorted, where they are a list. The only error is want of memory.
fn sorted(alloc: Global, values: &Doc) -> Result<Option<SortedValues<'_>>, AllocError>
    ensures { IfOk result (λ o. IfSome o
        (λ s. (x : Value) → has_value s x ≡ holds enum_of (value values.now) x)) }
{
    match values {
        Doc::List(values) => Ok(Some(SortedValues::of(alloc, values)?)),
        _ => Ok(None),
    }
}

// How many elements it has.
fn count_of(doc: &Doc) -> usize {
    match doc {
        Doc::List(items) => items.len(),
        _ => 0,
    }
}
