//! What is still to be sent on each connection.

ghost use Rattle.std.specs.Prelude.{◌≡◌, ◌≢◌, ◌≤◌, ◌<◌, true, false, ℕ, [], ◌+◌, ◌^◌, Some, None, OnOk, OnErr, IfErr, is_some, length, drop, option_copied, List};
ghost use Rattle.network.specs.Sizes.{IsCounted, IsCounted-prop, total_size};

use crate::kept::Kept;
use faults::Fault;
use std::alloc::Global;
use std::collections::BTreeMap;

/// What is still to be sent on each open connection, and how much memory all of them take: the bytes that are kept to be
/// sent, and those that connections hold of requests that aren't whole. No number is given twice.
#[derive(Drop)]
pub struct Outbox {
    alloc: Global,
    count: u64,
    most_memory: usize,
    // None once it was more than can be counted.
    memory: Option<u128>,
    connections: BTreeMap<u64, Kept>,
    ghost counted: { IsCounted memory (total_size connections) } by { IsCounted-prop memory (total_size connections) },
}

// The memory once one size has become another.
fn recounted(memory: Option<u128>, before: u128, after: u128) -> Option<u128>
    ensures { (old new : ℕ) → new + before ≡ old + after
        → IsCounted memory old → IsCounted result new }
{
    match memory {
        None => None,
        Some(memory) => match memory.checked_sub(before) {
            None => None,
            Some(others) => others.checked_add(after),
        },
    }
}

impl Outbox {
    ghost use Rattle.network.specs.Outboxes.{unsent_at, count_of, size_at, memory_of, most_of, is_counted, OthersStay};

    /// No connection, and so many bytes that all of them may take. This takes no memory.
    pub fn new(alloc: Global, most_memory: usize) -> Outbox
        ensures none { (k : ℕ) → unsent_at result k ≡ None }
        ensures count { count_of result ≡ 0 }
        ensures most { most_of result ≡ most_memory }
    {
        Outbox {
            alloc,
            count: 0,
            most_memory,
            memory: Some(0),
            connections: BTreeMap::new(alloc),
        }
    }

    /// The allocator that it was given.
    pub fn alloc(&self) -> Global {
        self.alloc
    }

    /// Opens a connection. The errors are [`Fault::IdInUse`], where its number isn't greater than all before or is the
    /// greatest, and want of memory, [`Fault::NoRoom`]; then nothing changes.
    pub fn open(&mut self, id: u64) -> Result<(), Fault>
        ensures fresh { OnOk result (count_of self.old ≤ id) }
        ensures ok { OnOk result (unsent_at self.new id ≡ Some []) }
        ensures count { OnOk result (count_of self.new ≡ id + 1) }
        ensures others { OnOk result (OthersStay id self.old self.new) }
        ensures err { OnErr result ((k : ℕ) → unsent_at self.new k ≡ unsent_at self.old k) }
        ensures err_count { OnErr result (count_of self.new ≡ count_of self.old) }
        ensures why { IfErr result (λ f. f ≢ Fault.NoRoom
            → count_of self.old ≤ id → id + 1 ≡ 2 ^ 64) }
    {
        if id < self.count || id == u64::MAX {
            return Err(Fault::IdInUse);
        }
        match self.connections.insert(id, Kept::nothing(self.alloc)) {
            Ok(replaced) => {
                self.count = id + 1;
                if let Some(kept) = replaced {
                    self.memory = recounted(self.memory, kept.size(), 0);
                }
                Ok(())
            }
            Err(_) => Err(Fault::NoRoom),
        }
    }

    /// Ends a connection, with what was still to be sent. Whether it was open.
    pub fn end(&mut self, id: u64) -> bool
        ensures open { result ≡ is_some (unsent_at self.old id) }
        ensures none { unsent_at self.new id ≡ None }
        ensures others { OthersStay id self.old self.new }
        ensures count { count_of self.new ≡ count_of self.old }
    {
        match self.connections.remove(&id) {
            Some(kept) => {
                self.memory = recounted(self.memory, kept.size(), 0);
                true
            }
            None => false,
        }
    }

    /// What is still to be sent on a connection; none where it isn't open.
    pub fn unsent(&self, id: u64) -> Option<&[u8]>
        ensures { option_copied result ≡ unsent_at self.now id }
    {
        match self.connections.get(&id) {
            Some(kept) => Some(kept.rest()),
            None => None,
        }
    }

    // How many bytes a connection keeps.
    fn size(&self, id: u64) -> u128
        ensures { result ≡ size_at self.now id }
    {
        match self.connections.get(&id) {
            Some(kept) => kept.size(),
            None => 0,
        }
    }

    /// Whether a connection may take more memory: whether all others together keep no more than all may. It may not once they
    /// were more than can be counted.
    pub fn may_grow(&self, id: u64) -> bool
        ensures may { result ≡ true
            → memory_of self.now ≤ size_at self.now id + most_of self.now }
        ensures may_not { result ≡ false → is_counted self.now ≡ true
            → size_at self.now id + most_of self.now < memory_of self.now }
    {
        match self.memory {
            None => false,
            Some(memory) => {
                let most = self.most_memory as u128;
                memory <= most || memory.saturating_sub(self.size(id)) <= most
            }
        }
    }

    /// Memory for what is to be sent next on a connection, where nothing is: what earlier bytes took, if they were few. What
    /// stands in it means nothing.
    pub fn lend(&mut self, id: u64) -> String
        requires { unsent_at self.old id ≡ Some [] }
        ensures same { (k : ℕ) → unsent_at self.new k ≡ unsent_at self.old k }
        ensures count { count_of self.new ≡ count_of self.old }
    {
        if let Some(kept) = self.connections.get_mut(&id) {
            let before = kept.size();
            let spare = kept.take_spare(self.alloc);
            self.memory = recounted(self.memory, before, kept.size());
            if let Ok(text) = String::from_utf8(spare) {
                return text;
            }
        }
        String::new(self.alloc)
    }

    /// Puts bytes to be sent where none were, and notes how many bytes the connection holds.
    pub fn fill(&mut self, id: u64, bytes: Vec<u8>, held: usize)
        requires { unsent_at self.old id ≡ Some [] }
        ensures some { unsent_at self.new id ≡ Some bytes.items }
        ensures others { OthersStay id self.old self.new }
        ensures count { count_of self.new ≡ count_of self.old }
    {
        if let Some(kept) = self.connections.get_mut(&id) {
            let before = kept.size();
            *kept = Kept::all(bytes, held);
            self.memory = recounted(self.memory, before, kept.size());
        }
    }

    /// Some of the first of the bytes were sent.
    pub fn advance(&mut self, id: u64, count: usize)
        requires { (rest : List ℕ) × (unsent_at self.old id ≡ Some rest) × (count ≤ length rest) }
        ensures some { (rest : List ℕ) → unsent_at self.old id ≡ Some rest
            → unsent_at self.new id ≡ Some (drop count rest) }
        ensures others { OthersStay id self.old self.new }
        ensures count { count_of self.new ≡ count_of self.old }
    {
        if let Some(kept) = self.connections.get_mut(&id) {
            let before = kept.size();
            kept.advance(self.alloc, count);
            self.memory = recounted(self.memory, before, kept.size());
        }
    }
}
