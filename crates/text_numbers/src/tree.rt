//! A tree that leads a text to a number by some of its bytes.

ghost use Rattle.std.specs.Prelude.{◌≡◌};
ghost use Rattle.std.specs.List.{position_from};
ghost use Rattle.text_numbers.specs.Turns.{goes_aside};
ghost use Rattle.text_numbers.specs.Trees.{leaf_of};

use crate::places::place_value;

/// What a tree tells of a text.
#[derive(Clone, Copy, Debug)]
pub(crate) struct Leaf {
    /// The number of one of the texts that come here.
    pub(crate) number: usize,
    /// Whether it is the number of the only text that does.
    pub(crate) only: bool,
}

/// A fork on the way down a tree: the texts on one side of the bound are led aside.
#[derive(Clone, Copy, Debug)]
pub(crate) struct Turn {
    pub(crate) position: usize,
    pub(crate) bound: u16,
    /// Whether those that have less than the bound are led aside, and not the rest.
    pub(crate) is_below: bool,
}

// What a turn takes, of which a look-up reads one after the other.
const _: () = prove!(size_of::<Turn>() == 16);

/// A way down: its turns, the tree that each leads to, and the leaf of the texts that none leads aside.
#[derive(Debug, Drop)]
pub(crate) struct Tree {
    pub(crate) turns: Vec<Turn>,
    pub(crate) asides: Vec<Tree>,
    pub(crate) end: Leaf,
}

impl Turn {
    #[inline(always)]
    fn leads_aside(&self, text: &str) -> bool
        ensures { result ≡ goes_aside self.now text.now }
    {
        (place_value(text, self.position) < self.bound) == self.is_below
    }
}

impl Tree {
    /// What the text comes to. This takes no memory.
    pub(crate) fn leaf(&self, text: &str) -> Leaf
        ensures { result ≡ leaf_of self.now text.now }
    {
        match turn_of(&self.turns, text) {
            Some(index) => match self.asides.get(index) {
                Some(aside) => aside.leaf(text),
                None => self.end,
            },
            None => self.end,
        }
    }
}

// The first turn that leads the text aside.
#[inline(always)]
fn turn_of(turns: &[Turn], text: &str) -> Option<usize>
    ensures { result ≡ position_from (λ turn. goes_aside turn text.now) 0 turns.now }
{
    for (index, turn) in turns.iter().enumerate() {
        if turn.leads_aside(text) {
            return Some(index);
        }
    }
    None
}
