//! Members of an object as they are read, in any order of names.

ghost use Rattle.std.specs.Prelude.{◌≡◌, [], IfOk, OnOk, length};
ghost use Rattle.json_doc.specs.Docs.{value, members_value};
ghost use Rattle.json_doc.specs.Gathers.{gathered_view};
ghost use Rattle.json_doc.specs.Members.{members_with};
ghost use Rattle.json_doc.specs.NameMaps.{IsPut};

use crate::doc::Doc;
use crate::members::Members;
use crate::name_map::NameMap;
use crate::small_text::SmallText;
use crate::tuning::MOST_MOVED;
use std::alloc::{AllocError, Global};
use std::collections::BTreeMap;
use std::mem;

/// Members of an object as they are read, in any order of names.
///
/// Contracts see them as a list of names and values, by `gathered_view`.
#[derive(Drop)]
pub(crate) enum Gathered {
    /// So few, or so much in order, that each goes to its place at little cost.
    Few(NameMap<Doc>),
    /// Any number in any order.
    Many(BTreeMap<SmallText, Doc>),
}

impl Gathered {
    /// No members. This takes no memory.
    pub fn new(alloc: Global) -> Gathered
        ensures { gathered_view result ≡ [] }
    {
        Gathered::Few(NameMap::new(alloc))
    }

    /// How many members there are.
    pub fn len(&self) -> usize
        ensures { result ≡ length (gathered_view self.now) }
    {
        match self {
            Gathered::Few(few) => few.len(),
            Gathered::Many(many) => many.len(),
        }
    }

    /// Makes room for so many members, where there are none yet. The only error is want of memory.
    #[inline(always)]
    pub fn make_room(&mut self, members: usize) -> Result<(), AllocError>
        ensures { OnOk result (gathered_view self.new ≡ gathered_view self.old) }
    {
        match self {
            Gathered::Few(few) => few.make_room(members),
            Gathered::Many(_) => Ok(()),
        }
    }

    /// Puts a member in, in place of the one of the same name, if there is one. The time grows with the logarithm of
    /// the number of members. The only error is want of memory.
    #[inline(always)]
    pub fn insert(&mut self, alloc: Global, name: &str, member: Doc) -> Result<(), AllocError>
        ensures { OnOk result
            (gathered_view self.new ≡ members_with name.now (value member)
            (gathered_view self.old)) }
    {
        self.give_way(alloc, name)?;
        match self {
            Gathered::Few(few) => few.insert(alloc, name, member),
            Gathered::Many(many) => put_in_map(alloc, many, name, member),
        }
    }

    // Turns the list of members into a map, where this name would move many of them.
    #[inline(always)]
    fn give_way(&mut self, alloc: Global, name: &str) -> Result<(), AllocError>
        ensures { OnOk result (gathered_view self.new ≡ gathered_view self.old) }
    {
        if self.would_move_many(name) {
            return self.turn_into_map(alloc);
        }
        Ok(())
    }

    // Whether there are many members, and this name does not come after all of them.
    #[inline(always)]
    fn would_move_many(&self, name: &str) -> bool {
        match self {
            Gathered::Few(few) => few.len() >= MOST_MOVED && !few.ends_before(name),
            Gathered::Many(_) => false,
        }
    }

    // Turns the list of members into a map of the same members.
    #[cold]
    #[inline(never)]
    fn turn_into_map(&mut self, alloc: Global) -> Result<(), AllocError>
        ensures { OnOk result (gathered_view self.new ≡ gathered_view self.old) }
    {
        let before = mem::replace(self, Gathered::new(alloc));
        *self = before.into_many(alloc)?;
        Ok(())
    }

    fn into_many(self, alloc: Global) -> Result<Gathered, AllocError>
        ensures { IfOk result (λ g. gathered_view g ≡ gathered_view self) }
    {
        match self {
            Gathered::Few(few) => Ok(Gathered::Many(few.into_map(alloc)?)),
            Gathered::Many(many) => Ok(Gathered::Many(many)),
        }
    }

    /// The object's members. The only error is want of memory.
    #[inline(always)]
    pub fn into_members(self, alloc: Global) -> Result<Members, AllocError>
        ensures { IfOk result (λ m. members_value m ≡ gathered_view self) }
    {
        match self {
            Gathered::Few(few) => Ok(Members::of(few)),
            Gathered::Many(many) => Ok(Members::of(NameMap::from_map(alloc, many)?)),
        }
    }
}

// Puts a member into a map, in place of the one of the same name, if there is one.
#[cold]
#[inline(never)]
fn put_in_map(
    alloc: Global,
    many: &mut BTreeMap<SmallText, Doc>,
    name: &str,
    member: Doc,
) -> Result<(), AllocError>
    ensures { OnOk result (IsPut name.now member many.old.entries many.new.entries) }
{
    let name = SmallText::from_str(alloc, name)?;
    drop(many.insert(name, member)?);
    Ok(())
}
