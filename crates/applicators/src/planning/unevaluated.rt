//! Elements and members that no other keyword evaluated (JSON Schema 2020-12 Core, 11).

ghost use Rattle.std.specs.Prelude.{◌≡◌, [], map, IfOk, IfSome, OnOk};
ghost use Rattle.std.specs.BTreeSet.{contains};
ghost use Rattle.std.specs.Borrow.{Bor};
ghost use Rattle.std.specs.List.{list_any};
ghost use Rattle.std.specs.Ordering.{eq_by_cmp};
ghost use Rattle.std.proofs.Props.{props};
ghost use Rattle.definitions.specs.Values.{Text, elements, members, same_text};
ghost use Rattle.definitions.specs.Applied.{Application, has};
ghost use Rattle.json_doc.specs.Docs.{value, members_value};
ghost use Rattle.json_doc.specs.NamedMembers.{name_text};
ghost use Rattle.applicators.specs.Applications.{planned_unevaluated_items, planned_unevaluated_properties};
ghost use Rattle.applicators.specs.Plans.{planned_view};
ghost use Rattle.applicators.specs.Subjects.{subject_value};
ghost use Rattle.lemmas.proofs.Texts.{text_order};

use crate::planned::{Part, Planned, Way};
use crate::subject::Subject;
use json_doc::{Doc, Members, Name};
use std::alloc::{AllocError, Global};
use std::collections::BTreeSet;

// Names, among which others are looked for: those that are asked for in the order in which they stand here are found at once,
// and a set of all is made where the first other one is asked for.
#[derive(Drop)]
struct NamesInOrder<'n, 'a> {
    alloc: Global,
    names: &'n [Name<'a>],
    // So many were asked for in order.
    passed: usize,
    all: Option<BTreeSet<&'a str>>,
    ghost right: { IfSome all (λ s. (q : Bor Text)
        → contains text_order s q ≡ list_any (λ n. same_text q.now (name_text n)) names.now) } by { Prim.hlevel props },
}

impl<'n, 'a> NamesInOrder<'n, 'a> {
    fn new(alloc: Global, names: &'n [Name<'a>]) -> NamesInOrder<'n, 'a>
        ensures { result.names.now ≡ names.now }
    {
        NamesInOrder {
            alloc,
            names,
            passed: 0,
            all: None,
        }
    }

    fn has(&mut self, name: Name<'a>) -> Result<bool, AllocError>
        ensures has { IfOk result
            (λ b. b ≡ has (name_text name.entry) (map name_text self.old.names.now)) }
        ensures names { self.new.names.now ≡ self.old.names.now }
    {
        if self.passed < self.names.len() && is_same(self.names[self.passed], name) {
            self.passed += 1;
            return Ok(true);
        }
        self.is_among_all(name)
    }

    fn is_among_all(&mut self, name: Name<'a>) -> Result<bool, AllocError>
        ensures has { IfOk result
            (λ b. b ≡ has (name_text name.entry) (map name_text self.old.names.now)) }
        ensures names { self.new.names.now ≡ self.old.names.now }
    {
        if let Some(all) = &self.all {
            return Ok(is_in(all, name.as_str()));
        }
        let all = names_of(self.alloc, self.names)?;
        let found = is_in(&all, name.as_str());
        self.all = Some(all);
        Ok(found)
    }
}

/// The schema, at each element whose index isn't among these (11.2).
pub fn plan_unevaluated_items<'a>(
    planned: &mut Vec<Planned<'a>>,
    schema: &'a Doc,
    subject: &Subject<'a>,
    indexes: &[usize],
) -> Result<(), AllocError>
    requires { planned.old.items ≡ [] }
    ensures { (a : Application) (k : Text) → a.instance ≡ subject_value subject.now
        → OnOk result (map (planned_view k a) planned.new.items
        ≡ planned_unevaluated_items k a (value schema.now) indexes.now 0 (elements a.instance)) }
{
    plan_unevaluated_elements(planned, schema, subject.elements(), indexes)
}

fn plan_unevaluated_elements<'a>(
    planned: &mut Vec<Planned<'a>>,
    schema: &'a Doc,
    items: &'a [Doc],
    indexes: &[usize],
) -> Result<(), AllocError>
    requires { planned.old.items ≡ [] }
    ensures { (a : Application) (k : Text)
        → OnOk result (map (planned_view k a) planned.new.items
        ≡ planned_unevaluated_items k a (value schema.now) indexes.now 0 (map value items.now)) }
{
    let evaluated = set_of(*planned.allocator(), indexes)?;
    for (index, item) in items.iter().enumerate() {
        if !is_in(&evaluated, index) {
            planned.push(Planned {
                way: Way::Own,
                schema,
                part: Part::Element(index),
                subject: Subject::Value(item),
            })?;
        }
    }
    Ok(())
}

/// The schema, at each member whose name isn't among these (11.3).
pub fn plan_unevaluated_properties<'a>(
    planned: &mut Vec<Planned<'a>>,
    schema: &'a Doc,
    subject: &Subject<'a>,
    names: &[Name<'a>],
) -> Result<(), AllocError>
    requires { planned.old.items ≡ [] }
    ensures { (a : Application) (k : Text) → a.instance ≡ subject_value subject.now
        → OnOk result (map (planned_view k a) planned.new.items
        ≡ planned_unevaluated_properties k a (value schema.now) (map name_text names.now)
        (members a.instance)) }
{
    match subject.members() {
        Some(members) => plan_unevaluated_members(planned, schema, members, names),
        None => Ok(()),
    }
}

fn plan_unevaluated_members<'a>(
    planned: &mut Vec<Planned<'a>>,
    schema: &'a Doc,
    members: &'a Members,
    names: &[Name<'a>],
) -> Result<(), AllocError>
    requires { planned.old.items ≡ [] }
    ensures { (a : Application) (k : Text)
        → OnOk result (map (planned_view k a) planned.new.items
        ≡ planned_unevaluated_properties k a (value schema.now) (map name_text names.now)
        (members_value members.now)) }
{
    let mut evaluated = NamesInOrder::new(*planned.allocator(), names);
    for (name, member) in members.iter().named() {
        if !evaluated.has(name)? {
            planned.push(Planned {
                way: Way::Own,
                schema,
                part: Part::Member(name),
                subject: Subject::Value(member),
            })?;
        }
    }
    Ok(())
}

// Whether two names are the same: most that are, are short, and are told at once.
#[inline(always)]
fn is_same(name: Name<'_>, other: Name<'_>) -> bool
    ensures { result ≡ same_text (name_text name.entry) (name_text other.entry) }
{
    name.is_surely(other) || name.as_str() == other.as_str()
}

// The names in order, to look up.
fn names_of<'a>(alloc: Global, names: &[Name<'a>]) -> Result<BTreeSet<&'a str>, AllocError>
    ensures { IfOk result (λ s. (q : Bor Text)
        → contains text_order s q ≡ list_any (λ n. same_text q.now (name_text n)) names.now) }
{
    let mut seen = BTreeSet::new(alloc);
    for name in names {
        seen.insert(name.as_str())?;
    }
    Ok(seen)
}

// The keys in order, to look up.
fn set_of<K: Ord + Copy + Drop>(alloc: Global, keys: &[K]) -> Result<BTreeSet<K>, AllocError>
    ensures { IfOk result (λ s. (q : K)
        → contains K.cmp s q ≡ list_any (λ k. eq_by_cmp K.cmp k q) keys.now) }
{
    let mut seen = BTreeSet::new(alloc);
    for key in keys {
        seen.insert(*key)?;
    }
    Ok(seen)
}

fn is_in<K: Ord + Copy + Drop>(seen: &BTreeSet<K>, key: K) -> bool
    ensures { result ≡ contains K.cmp seen.now key }
{
    seen.contains(&key)
}
