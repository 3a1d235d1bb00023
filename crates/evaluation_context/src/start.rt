//! Where an evaluation begins.

ghost use Rattle.std.specs.Prelude.{IfOk};
ghost use Rattle.schema_scan.specs.Locateds.{located_view};

use crate::context_memory::ContextMemory;
use crate::running_objects::RunningObjects;
use basic_output::Origin;
use schema_scan::Located;
use std::alloc::{AllocError, Global};
use std::rc::Rc;

/// Where the first application stands: at a schema, and at the whole instance.
#[derive(Drop)]
pub struct Start<'a> {
    pub(crate) origin: Rc<Origin<'a>>,
    pub(crate) running: RunningObjects<'a>,
}

impl<'a> Start<'a> {
    ghost use Rattle.evaluation_context.specs.Starts.{IsStart};

    /// At this schema. Its locations are written in memory that was kept, if any was. The only error is want of memory.
    #[inline(never)]
    pub fn of(
        alloc: Global,
        root: Located<'a>,
        memory: ContextMemory,
    ) -> Result<Start<'a>, AllocError>
        ensures { IfOk result (λ start. IsStart start (located_view root.entry)) }
    {
        let Located {
            resource,
            steps,
            schema: _,
        } = root;
        let origin = Rc::new(alloc, Origin::within(memory.origin, resource, steps)?)?;
        let running = RunningObjects::within(alloc, memory.pointers)?;
        Ok(Start { origin, running })
    }
}
