//! Connections over memory.

ghost use Rattle.std.specs.Prelude.{◌≡◌, [], ⊤};
ghost use Rattle.network.specs.Scenes.{client_at};
ghost use Rattle.network.specs.Transcripts.{moves_of, ids_of};

use crate::networks::{Broken, Network, Occasion};
use crate::outbox::Outbox;
use crate::scenes::{Happening, Scene};
use crate::transcript::Transcript;
use std::alloc::Global;

/// Many connections over memory, on which happens what a script says. Where memory lacks, the script is at its end.
///
/// It promises nothing of who will be told ready: that is the script's matter.
#[derive(Drop)]
pub struct MemoryNetwork<'a> {
    scene: Scene<'a>,
    reads: Transcript,
    writes: Transcript,
    ways: Transcript,
}

impl<'a> MemoryNetwork<'a> {
    ghost use Rattle.network.specs.Memory.{reads_of, writes_of};

    /// No connection, on which this is to happen. This takes no memory.
    pub fn new(alloc: Global, script: &'a [Happening<'a>]) -> MemoryNetwork<'a>
        ensures reads { reads_of result ≡ [] }
        ensures writes { writes_of result ≡ [] }
    {
        MemoryNetwork {
            scene: Scene::new(alloc, script),
            reads: Transcript::new(),
            writes: Transcript::new(),
            ways: Transcript::new(),
        }
    }

    /// The bytes that were written on a connection, also on one that has ended.
    pub fn written(&self, id: u64) -> &[u8] {
        self.scene.written(id)
    }

    /// How many bytes of a connection's stream arrived and weren't read.
    pub fn unread(&self, id: u64) -> usize {
        self.scene.unread(id)
    }

    /// Whether a connection was opened and ended.
    pub fn is_closed(&self, id: u64) -> bool {
        self.scene.is_closed(id)
    }
}

impl Network for MemoryNetwork<'_> {
    ghost reads = { λ s. moves_of s.reads };

    ghost writes = { λ s. moves_of s.writes };

    ghost due = { λ s d k. ⊤ };

    ghost client = { λ s k. client_at s.scene k };

    ghost gave_way = { λ s. ids_of s.ways };

    fn next(&mut self) -> Option<Occasion> {
        self.scene.next()
    }

    fn wait(&mut self, _outbox: &Outbox) -> Result<(), Broken> {
        self.scene.wait();
        Ok(())
    }

    fn read(&mut self, id: u64, buffer: &mut [u8]) -> Result<Option<usize>, Broken> {
        match self.scene.read(id, buffer) {
            Ok(None) => Ok(None),
            Ok(Some(count)) => {
                self.reads = self.reads.moved(id, &buffer[..count]);
                Ok(Some(count))
            }
            Err(broken) => Err(broken),
        }
    }

    fn write(&mut self, id: u64, bytes: &[u8]) -> Result<Option<usize>, Broken> {
        match self.scene.write(id, bytes) {
            Ok(None) => Ok(None),
            Ok(Some(count)) => {
                self.writes = self.writes.moved(id, &bytes[..count]);
                Ok(Some(count))
            }
            Err(broken) => Err(broken),
        }
    }

    fn again(&mut self, id: u64) {
        self.scene.again(id);
    }

    fn await_more(&mut self, id: u64) {
        self.scene.again(id);
    }

    fn later(&mut self, id: u64) {
        self.scene.later(id);
    }

    fn give_way(&mut self, id: u64) {
        self.ways = self.ways.named(id);
    }

    fn close(&mut self, id: u64) {
        self.scene.close(id);
    }
}
