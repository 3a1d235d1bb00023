//! Documents embedded in another (JSON Schema 2020-12 Core, section 9.3).

ghost use Rattle.std.specs.Prelude.{◌≡◌, [], IfOk, IfErr, map};
ghost use Rattle.definitions.specs.Bundles.{bundle_of, defs_of, members_with_documents, put_member, under_its_uri, with_member};
ghost use Rattle.definitions.specs.Documents.{Ascend};
ghost use Rattle.definitions.specs.Values.{members};
ghost use Rattle.json_doc.specs.Docs.{value, members_value};
ghost use Rattle.bundler.specs.Constituents.{constituent_view};

use crate::constituent::Constituent;
use faults::Fault;
use json_doc::{Doc, Members, copy};
use std::alloc::Global;

// The bundle of these documents around the root. The others are in byte order of their URIs.
pub(crate) fn compound(
    alloc: Global,
    root: &Constituent<'_>,
    others: &[Constituent<'_>],
) -> Result<Doc, Fault>
    requires { Ascend (map constituent_view others.now) }
    ensures ok { IfOk result
        (λ d. value d ≡ bundle_of (constituent_view root.now) (map constituent_view others.now)) }
    ensures err { IfErr result (λ f. f ≡ Fault.NoRoom) }
{
    let whole = under_its_uri(alloc, root)?;
    if others.is_empty() {
        return Ok(whole);
    }
    let defs = with_others(alloc, own_defs(alloc, root.value)?, others)?;
    with_member(alloc, whole, "$defs", Doc::Dict(defs))
}

// The document's value with its URI as `$id`.
fn under_its_uri(alloc: Global, document: &Constituent<'_>) -> Result<Doc, Fault>
    ensures ok { IfOk result (λ d. value d ≡ under_its_uri (constituent_view document.now)) }
    ensures err { IfErr result (λ f. f ≡ Fault.NoRoom) }
{
    let id = Doc::string(alloc, document.uri)?;
    with_member(alloc, copy(alloc, document.value)?, "$id", id)
}

// The value with a member of this name, if it is an object, and else as it is.
fn with_member(alloc: Global, whole: Doc, name: &str, member: Doc) -> Result<Doc, Fault>
    ensures ok { IfOk result (λ d. value d ≡ with_member name.now (value member) (value whole)) }
    ensures err { IfErr result (λ f. f ≡ Fault.NoRoom) }
{
    match whole {
        Doc::Dict(members) => Ok(Doc::Dict(with_entry(alloc, members, name, member)?)),
        other => Ok(other),
    }
}

fn with_entry(alloc: Global, members: Members, name: &str, member: Doc) -> Result<Members, Fault>
    ensures ok { IfOk result
        (λ m. members_value m ≡ put_member name.now (value member) (members_value members)) }
    ensures err { IfErr result (λ f. f ≡ Fault.NoRoom) }
{
    let mut members = members;
    members.insert(alloc, name, member)?;
    Ok(members)
}

// A copy of the members of the document's `$defs`, if it has any.
fn own_defs(alloc: Global, document: &Doc) -> Result<Members, Fault>
    ensures ok { IfOk result (λ m. members_value m ≡ defs_of (value document.now)) }
    ensures err { IfErr result (λ f. f ≡ Fault.NoRoom) }
{
    match document.get("$defs") {
        Some(defs) => own_members(alloc, defs),
        None => Ok(Members::new(alloc)),
    }
}

// A copy of the value's members, none where it is no object.
fn own_members(alloc: Global, doc: &Doc) -> Result<Members, Fault>
    ensures ok { IfOk result (λ m. members_value m ≡ members (value doc.now)) }
    ensures err { IfErr result (λ f. f ≡ Fault.NoRoom) }
{
    match copy(alloc, doc)? {
        Doc::Dict(members) => Ok(members),
        _ => Ok(Members::new(alloc)),
    }
}

// The members, and the documents under their URIs.
fn with_others(alloc: Global, defs: Members, others: &[Constituent<'_>]) -> Result<Members, Fault>
    requires { Ascend (map constituent_view others.now) }
    ensures ok { IfOk result
        (λ m. members_value m ≡ members_with_documents (map constituent_view others.now)
        (members_value defs)) }
    ensures err { IfErr result (λ f. f ≡ Fault.NoRoom) }
{
    let mut members = defs;
    for other in others {
        members = with_entry(alloc, members, other.uri, under_its_uri(alloc, other)?)?;
    }
    Ok(members)
}
