//! The memory of plans.

use crate::planned::Planned;
use crate::tuning::MOST_KEPT;
use std::alloc::Global;

/// The memory of plans that are done with, for those of the next keywords. No plan depends on what is in it.
///
/// There is as much as for the keywords that nested, and for each of them room for 64 plans at most.
#[derive(Drop)]
pub struct PlanMemory<'a> {
    alloc: Global,
    kept: Vec<Vec<Planned<'a>>>,
}

impl<'a> PlanMemory<'a> {
    /// None yet. This takes no memory; plans take it from `alloc`.
    pub fn new(alloc: Global) -> PlanMemory<'a> {
        PlanMemory {
            alloc,
            kept: Vec::new(alloc),
        }
    }

    /// Memory for the plans of one keyword, to be given back: that which was given back last, where any is left.
    #[inline(always)]
    pub fn take(&mut self) -> Vec<Planned<'a>> {
        match self.kept.pop() {
            Some(planned) => planned,
            None => Vec::new(self.alloc),
        }
    }

    /// Drops the plans, which are done with, and keeps their memory, if there is any, unless it has room for more than 64 plans,
    /// or there is no memory to note it in.
    #[inline(always)]
    pub fn give_back(&mut self, planned: Vec<Planned<'a>>) {
        let mut planned = planned;
        planned.clear();
        if planned.capacity() > 0 && planned.capacity() <= MOST_KEPT {
            let _ = self.kept.push(planned);
        }
    }
}
