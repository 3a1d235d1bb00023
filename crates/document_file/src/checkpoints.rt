//! A store whose file can be made to hold everything alone.

ghost use Rattle.sqlite_trees.specs.View.{IsQuiet};

use sqlite_disk::Disk;
use sqlite_store::FileStore;
use sqlite_trees::error::StoreError;
use sqlite_trees::store::Store;

/// A store with a log, which can be copied into its file.
pub trait Checkpoint: Store {
    /// Copies the log into the file, so that the file alone holds what is committed. What a crash leaves stays as it was,
    /// also where this fails.
    fn checkpoint(&mut self) -> Result<(), StoreError>
        ensures quiet { IsQuiet Self.Store.view Self.Store.faults Self.Store.recovers
            Self.Store.is_shielded self.old self.new };
}

impl<D: Disk> Checkpoint for FileStore<D> {
    fn checkpoint(&mut self) -> Result<(), StoreError> {
        FileStore::checkpoint(self)
    }
}
