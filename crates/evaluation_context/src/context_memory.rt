//! The memory that a context's locations are written in.

use basic_output::PointerTexts;
use std::alloc::Global;

/// The memory that a context's evaluation path, instance location and origin are written in, to be kept for the next context:
/// what their texts of at most 1,048,576 bytes were written in. No context depends on what is in it.
#[derive(Debug, Drop)]
pub struct ContextMemory {
    pub(crate) origin: String,
    pub(crate) pointers: PointersMemory,
}

impl ContextMemory {
    /// None yet. This takes no memory; what is written takes it from `alloc`.
    pub fn new(alloc: Global) -> ContextMemory {
        ContextMemory {
            origin: String::new(alloc),
            pointers: PointersMemory {
                path: None,
                instance_location: None,
            },
        }
    }
}

/// The memory that a context's evaluation path and instance location are written in, to be kept for the next context. Either is
/// none where there is nothing to keep.
#[derive(Debug, Drop)]
pub(crate) struct PointersMemory {
    pub(crate) path: Option<Box<PointerTexts>>,
    pub(crate) instance_location: Option<Box<PointerTexts>>,
}
