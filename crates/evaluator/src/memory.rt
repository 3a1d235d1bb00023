//! The memory that an evaluation works in.

use evaluation_context::ContextMemory;
use evaluation_log::LogMemory;
use output_texts::{NotedUnits, Output};
use std::alloc::Global;

/// The memory that an evaluation works in, to be kept for the next one: that of the texts of its units, of its evaluation path,
/// of its instance location and of its root's location, for each of at most 1,048,576 bytes of text, and that of the indexes
/// that it evaluated. The memory of the texts of units stays larger as long as they take a quarter of it, up to 16,777,216
/// bytes. No answer depends on what is in it.
#[derive(Drop)]
pub struct EvaluationMemory {
    pub(crate) log: LogMemory,
    pub(crate) context: ContextMemory,
}

impl EvaluationMemory {
    /// None yet. This takes no memory; an evaluation takes it from its own allocator.
    pub fn new(alloc: Global) -> EvaluationMemory {
        EvaluationMemory {
            log: LogMemory::new(alloc),
            context: ContextMemory::new(alloc),
        }
    }

    /// Takes back the memory of an output that is done with, for the next evaluation.
    pub fn take_back(&mut self, output: Output) {
        self.keep(output.into_units());
    }

    /// Keeps the memory of these units.
    pub(crate) fn keep(&mut self, units: Box<NotedUnits>) {
        self.log.keep(units);
    }
}
