//! The names that an object has to have (Validation, sections 6.5.3 and 6.5.4).

ghost use Rattle.std.specs.Prelude.{◌≡◌, ◌||◌, not, is_some};
ghost use Rattle.std.specs.List.{list_all};
ghost use Rattle.definitions.specs.Values.{get, elements, entry, members};
ghost use Rattle.definitions.specs.Assertions.{has_names, has_name, has_dependents};
ghost use Rattle.json_doc.specs.Docs.{value, members_value};
ghost use Rattle.assertions.specs.Dependents.{has_all_dependents, has_names_if};

use json_doc::{Doc, Members};

/// Whether the instance, where it is an object, has each of the names.
pub(crate) fn has_names(instance: &Doc, names: &Doc) -> bool
    ensures { result ≡ has_names (value instance.now) (value names.now) }
{
    match instance {
        Doc::Dict(_) => has_each_name(instance, names),
        _ => true,
    }
}

fn has_each_name(instance: &Doc, names: &Doc) -> bool
    ensures { result ≡ list_all (has_name (value instance.now)) (elements (value names.now)) }
{
    match names {
        Doc::List(names) => has_all(instance, names),
        _ => true,
    }
}

fn has_all(instance: &Doc, names: &[Doc]) -> bool
    ensures { result ≡ list_all (λ d. has_name (value instance.now) (value d)) names.now }
{
    names.iter().all(|name| has_name(instance, name))
}

fn has_name(instance: &Doc, name: &Doc) -> bool
    ensures { result ≡ has_name (value instance.now) (value name.now) }
{
    match name {
        Doc::Str(name) => instance.get(name.as_str()).is_some(),
        Doc::Short(name) => instance.get_short(name).is_some(),
        _ => true,
    }
}

/// Whether the instance, where it is an object, has for each name that is there those that it asks for.
pub(crate) fn has_dependents(instance: &Doc, dependents: &Doc) -> bool
    ensures { result ≡ has_dependents (value instance.now) (value dependents.now) }
{
    match instance {
        Doc::Dict(present) => has_each_dependent(instance, present, dependents),
        _ => true,
    }
}

// Along the shorter of the two: the lists, or the members of the instance.
fn has_each_dependent(instance: &Doc, present: &Members, dependents: &Doc) -> bool
    ensures { members (value instance.now) ≡ members_value present.now
        → result ≡ has_all_dependents (value instance.now) (members (value dependents.now)) }
{
    match dependents {
        Doc::Dict(lists) if present.len() < lists.len() => {
            has_dependents_along_instance(instance, present, lists)
        }
        Doc::Dict(lists) => has_dependents_along_lists(instance, lists),
        _ => true,
    }
}

fn has_dependents_along_instance(instance: &Doc, present: &Members, lists: &Members) -> bool
    ensures { members (value instance.now) ≡ members_value present.now
        → result ≡ has_all_dependents (value instance.now) (members_value lists.now) }
{
    // Their contracts say that the names are in order.
    let _ = lists.iter();
    let _ = present.iter();
    has_dependents_of_members(instance, present, lists)
}

fn has_dependents_of_members(instance: &Doc, present: &Members, lists: &Members) -> bool
    ensures { result ≡ list_all
        (λ m. has_names_if (value instance.now) (entry m.0 (members_value lists.now)))
        (members_value present.now) }
{
    present
        .iter()
        .all(|(name, _)| has_dependents_of(instance, name, lists))
}

// The instance has what the list of this name asks for, where there is one.
fn has_dependents_of(instance: &Doc, name: &str, lists: &Members) -> bool
    ensures { result
        ≡ has_names_if (value instance.now) (entry name.now (members_value lists.now)) }
{
    match lists.get(name) {
        Some(names) => has_names(instance, names),
        None => true,
    }
}

fn has_dependents_along_lists(instance: &Doc, lists: &Members) -> bool
    ensures { result ≡ has_all_dependents (value instance.now) (members_value lists.now) }
{
    lists
        .iter()
        .all(|(name, names)| has_those_of(instance, name, names))
}

// Where the instance has the name, it has these too.
fn has_those_of(instance: &Doc, name: &str, names: &Doc) -> bool
    ensures { result ≡ (not (is_some (get name.now (value instance.now)))
        || has_names (value instance.now) (value names.now)) }
{
    instance.get(name).is_none() || has_names(instance, names)
}
