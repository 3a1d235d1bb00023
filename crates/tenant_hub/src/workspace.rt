//! What is kept from one request to the next beside the registries. No reply depends on it.

ghost use Rattle.std.specs.Prelude.{◌≡◌, ◌≢◌, [], false, IfErr, IfOk};
ghost use Rattle.definitions.specs.Caches.{is_capacity};

use evaluator::EvaluationMemory;
use json_doc::Scratch;
use requests::Fault;
use shared_cache::Cache;
use std::alloc::Global;

// Compiled documents, the memory that bodies are read in, which grows to the length of the longest, and the memory that instances
// are evaluated in.
#[derive(Drop)]
pub(crate) struct Workspace {
    pub(crate) cache: Cache,
    pub(crate) scratch: Scratch,
    pub(crate) evaluation: EvaluationMemory,
}

impl Workspace {
    // `BadCapacity` where the capacity is outside 1 to 4096, else only `NoRoom`.
    pub(crate) fn new(alloc: Global, capacity: usize) -> Result<Workspace, Fault>
        ensures ok { IfOk result (λ w. w.cache ≡ record { keys = []; capacity = capacity }) }
        ensures err { IfErr result (λ f. f ≢ Fault.NoRoom → is_capacity capacity ≡ false) }
    {
        Ok(Workspace {
            cache: Cache::new(alloc, capacity)?,
            scratch: Scratch::new(alloc),
            evaluation: EvaluationMemory::new(alloc),
        })
    }

    // Gives the memory back: no document is kept, and the next body finds no memory to be read in, nor an instance to be evaluated in.
    pub(crate) fn clear(&mut self, alloc: Global)
        ensures { self.new.cache ≡ record { keys = []; capacity = self.old.cache.capacity } }
    {
        self.cache.clear(alloc);
        self.scratch = Scratch::new(alloc);
        self.evaluation = EvaluationMemory::new(alloc);
    }
}
