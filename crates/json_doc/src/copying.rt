//! A second owner of the same value, in which keywords' names stand as the keywords.

ghost use Rattle.std.specs.Prelude.{◌≡◌, true, IfOk, OnOk, map};
ghost use Rattle.definitions.specs.Values.{are_well_formed, are_well_formed_members, is_well_formed, to_elements};
ghost use Rattle.json_doc.specs.Docs.{value, members_value, members_view};

use crate::doc::Doc;
use crate::members::Members;
use std::alloc::{AllocError, Global};

/// A copy of the value, in which keywords' names stand as the keywords. The only error is want of memory.
///
/// What is copied was seen whole, so the contract also says that every value that could be copied is well formed.
#[cycle(copy)]
pub fn copy(alloc: Global, doc: &Doc) -> Result<Doc, AllocError>
    ensures ok { IfOk result (λ copied. value copied ≡ value doc.now) }
    ensures well_formed { OnOk result (is_well_formed (value doc.now) ≡ true) }
{
    match doc {
        Doc::Null => Ok(Doc::Null),
        Doc::Bool(boolean) => Ok(Doc::Bool(*boolean)),
        Doc::Int(number) => {
            // Its bounds are known once it is read.
            let _number = number.number();
            Ok(Doc::Int(*number))
        }
        Doc::Str(text) => Ok(Doc::Str(String::from_str(alloc, text.as_str())?)),
        Doc::Short(text) => Ok(Doc::Short(*text)),
        Doc::List(items) => Ok(Doc::List(copy_items(alloc, items.as_slice())?)),
        Doc::Dict(members) => Ok(Doc::Dict(copy_members(alloc, members)?)),
    }
}

#[cycle(copy)]
fn copy_items(alloc: Global, items: &[Doc]) -> Result<Vec<Doc>, AllocError>
    ensures ok { IfOk result (λ copies. map value copies.items ≡ map value items.now) }
    ensures well_formed { OnOk result
        (are_well_formed (to_elements (map value items.now)) ≡ true) }
{
    let mut copies = Vec::with_capacity(alloc, items.len())?;
    for item in items {
        copies.push(copy(alloc, item)?)?;
    }
    Ok(copies)
}

#[cycle(copy)]
fn copy_members(alloc: Global, members: &Members) -> Result<Members, AllocError>
    ensures ok { IfOk result (λ copies. members_value copies ≡ members_value members.now) }
    ensures well_formed { OnOk result (are_well_formed_members (members_view members.now) ≡ true) }
{
    let mut copies = Members::new(alloc);
    for (name, member) in members.iter() {
        copies.insert_named(alloc, name, copy(alloc, member)?)?;
    }
    Ok(copies)
}
