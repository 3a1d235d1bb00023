//! The cache of compiled documents.

ghost use Rattle.std.specs.Prelude.{◌≡◌, ◌≢◌, [], true, false, None, IfErr, IfOk, IfSome, OnErr, OnOk, length};
ghost use Rattle.definitions.specs.Caches.{has_key, is_capacity, cache_after_use, IsUsed};
ghost use Rattle.definitions.specs.Patterns.{regular_search};
ghost use Rattle.definitions.specs.Scanning.{scan_fault};
ghost use Rattle.definitions.specs.Searches.{is_regular};
ghost use Rattle.definitions.specs.Texts.{text};
ghost use Rattle.definitions.specs.Uris.{recompose};
ghost use Rattle.faults.specs.View.{fault_view};
ghost use Rattle.json_doc.specs.Docs.{value};
ghost use Rattle.schema_scan.specs.CompiledDocuments.{compiled_base, compiled_value};
ghost use Rattle.shared_cache.specs.Entries.{IsMadeBy};
ghost use Rattle.shared_cache.specs.Readings.{is_read_as, read_value};
ghost use Rattle.shared_cache.specs.Refusals.{Refuses};

use crate::compiling::{compiled_anew, read_again, refusal};
use crate::key::Key;
use faults::Fault;
use json_doc::{Doc, Scratch, nesting};
use lru::LruCache;
use schema_scan::Compiled;
use std::alloc::{AllocError, Global};
use std::marker::Model;
use std::num::NonZeroUsize;
use std::rc::Rc;
use uri_ref::{Parts, split};

// How many documents a cache may keep.
const MOST_KEPT: usize = 4096;

// How deep a document may nest that a scan takes.
const MOST_NESTED: usize = 120;

/// Compiled documents by their keys, so many at most: a new one pushes out the one that was asked for longest ago.
///
/// Contracts see the keys, the most recently used first, and the capacity.
#[derive(Drop)]
pub struct Cache {
    entries: LruCache<Rc<Key>, Rc<Compiled>>,
    // In which documents are read that are kept no longer.
    scratch: Scratch,
}

impl Model for Cache {
    ghost use Rattle.std.specs.Prelude.{map};
    ghost use Rattle.definitions.specs.Caches.{Cache as KeptKeys};
    ghost use Rattle.shared_cache.specs.Entries.{AreMade};

    ghost Value = { KeptKeys };

    ghost view = { λ c. record { keys = map (λ e. e.0.value) c.entries.entries; capacity = c.entries.cap } };

    ghost invariant = { λ c. AreMade c.entries.entries };
}

impl Cache {
    /// An empty cache for so many documents.
    ///
    /// [`Fault::BadCapacity`] is for a capacity outside 1 to 4096. The only other error is want of memory.
    pub fn new(alloc: Global, capacity: usize) -> Result<Cache, Fault>
        ensures ok { IfOk result (λ c. c ≡ record { keys = []; capacity = capacity }) }
        ensures within { OnOk result (is_capacity capacity ≡ true) }
        ensures err { IfErr result (λ f. f ≢ Fault.NoRoom → f ≡ Fault.BadCapacity) }
        ensures outside { IfErr result (λ f. f ≢ Fault.NoRoom → is_capacity capacity ≡ false) }
    {
        if capacity > MOST_KEPT {
            return Err(Fault::BadCapacity);
        }
        match NonZeroUsize::new(capacity) {
            Some(most) => Ok(Cache {
                entries: LruCache::new(alloc, most)?,
                scratch: Scratch::new(alloc),
            }),
            None => Err(Fault::BadCapacity),
        }
    }

    /// How many documents are kept.
    pub fn len(&self) -> usize
        ensures { result ≡ length self.now.keys }
    {
        self.entries.len()
    }

    /// How many documents may be kept.
    pub fn capacity(&self) -> usize
        ensures { result ≡ self.now.capacity }
    {
        self.entries.cap().get()
    }

    /// Forgets every document. This takes no memory, and gives back what it read in, and that of each document which nothing else
    /// holds.
    pub fn clear(&mut self, alloc: Global)
        ensures { self.new ≡ record { keys = []; capacity = self.old.capacity } }
    {
        self.entries.clear();
        self.scratch = Scratch::new(alloc);
    }

    /// The document under this base, compiled: the one that is kept, or else a new one, which is kept from now on.
    ///
    /// It answers what a scan and a compilation of these arguments answer, whatever is kept: first the faults of a scan, in
    /// their order, then [`Fault::BadPattern`], which only a document with patterns meets. The only other error is want of
    /// memory. A document that is refused isn't kept, and a new one isn't kept where memory is wanting for that alone. What
    /// was answered lives on when the cache keeps it no longer.
    pub fn compiled(
        &mut self,
        alloc: Global,
        base: &Parts,
        document: &Doc,
    ) -> Result<Rc<Compiled>, Fault>
        ensures base { IfOk result (λ c. compiled_base c.value ≡ recompose base.now) }
        ensures value { IfOk result (λ c. compiled_value c.value ≡ value document.now) }
        ensures sound { OnOk result (scan_fault (recompose base.now) (value document.now) ≡ None) }
        ensures regular { OnOk result (is_regular regular_search (value document.now) ≡ true) }
        ensures err { IfErr result
            (λ f. f ≢ Fault.NoRoom → Refuses (recompose base.now) (value document.now)
            (fault_view f)) }
        ensures kept { OnOk result
            (IsUsed self.old (recompose base.now, text (value document.now)) self.new) }
        ensures refused { OnErr result (self.new ≡ self.old) }
    {
        let (_, compiled) = self.compiled_with_key(alloc, base, document)?;
        Ok(compiled)
    }

    /// The document under this base, compiled as [`Cache::compiled`] does it, with the same faults, and its key, under which it
    /// can be asked for again by [`Cache::compiled_of_key`].
    pub fn compiled_with_key(
        &mut self,
        alloc: Global,
        base: &Parts,
        document: &Doc,
    ) -> Result<(Rc<Key>, Rc<Compiled>), Fault>
        ensures key { IfOk result
            (λ r. r.0.value ≡ (recompose base.now, text (value document.now))) }
        ensures reads_back { IfOk result (λ r. is_read_as r.0.value.1 (value document.now) ≡ true) }
        ensures spells { IfOk result (λ r. read_value r.0.value.1 ≡ value document.now) }
        ensures base { IfOk result (λ r. compiled_base r.1.value ≡ recompose base.now) }
        ensures value { IfOk result (λ r. compiled_value r.1.value ≡ value document.now) }
        ensures sound { OnOk result (scan_fault (recompose base.now) (value document.now) ≡ None) }
        ensures regular { OnOk result (is_regular regular_search (value document.now) ≡ true) }
        ensures err { IfErr result
            (λ f. f ≢ Fault.NoRoom → Refuses (recompose base.now) (value document.now)
            (fault_view f)) }
        ensures kept { OnOk result
            (IsUsed self.old (recompose base.now, text (value document.now)) self.new) }
        ensures refused { OnErr result (self.new ≡ self.old) }
    {
        if nesting(document) > MOST_NESTED {
            return Err(refusal(alloc, base, document));
        }
        let key = Rc::new(alloc, Key::of(alloc, base, document)?)?;
        let compiled = self.compiled_as(alloc, &key, document)?;
        Ok((key, compiled))
    }

    /// The document of a key that was made before, compiled as [`Cache::compiled`] does it, with the same faults. Where it isn't
    /// kept, it is read from the key's text, which has to be one that is read as a value.
    pub fn compiled_of_key(&mut self, alloc: Global, key: &Rc<Key>) -> Result<Rc<Compiled>, Fault>
        requires { is_read_as key.now.value.1 (read_value key.now.value.1) ≡ true }
        ensures base { IfOk result (λ c. compiled_base c.value ≡ key.now.value.0) }
        ensures value { IfOk result (λ c. compiled_value c.value ≡ read_value key.now.value.1) }
        ensures sound { OnOk result
            (scan_fault key.now.value.0 (read_value key.now.value.1) ≡ None) }
        ensures regular { OnOk result
            (is_regular regular_search (read_value key.now.value.1) ≡ true) }
        ensures err { IfErr result
            (λ f. f ≢ Fault.NoRoom → Refuses key.now.value.0 (read_value key.now.value.1)
            (fault_view f)) }
        ensures kept { OnOk result (IsUsed self.old key.now.value self.new) }
        ensures refused { OnErr result (self.new ≡ self.old) }
    {
        match self.find(key)? {
            Some(found) => {
                // What is found passed the scan, and its patterns were built.
                let _ = found.document();
                Ok(found)
            }
            None => {
                let document = read_again(alloc, &mut self.scratch, key)?;
                self.compiled_and_kept(alloc, key, &document)
            }
        }
    }

    // The document of a key whose text is read as the document's value.
    fn compiled_as(
        &mut self,
        alloc: Global,
        key: &Rc<Key>,
        document: &Doc,
    ) -> Result<Rc<Compiled>, Fault>
        requires { is_read_as key.now.value.1 (value document.now) ≡ true }
        ensures base { IfOk result (λ c. compiled_base c.value ≡ key.now.value.0) }
        ensures value { IfOk result (λ c. compiled_value c.value ≡ value document.now) }
        ensures sound { OnOk result (scan_fault key.now.value.0 (value document.now) ≡ None) }
        ensures regular { OnOk result (is_regular regular_search (value document.now) ≡ true) }
        ensures err { IfErr result
            (λ f. f ≢ Fault.NoRoom → Refuses key.now.value.0 (value document.now) (fault_view f)) }
        ensures kept { OnOk result (IsUsed self.old key.now.value self.new) }
        ensures refused { OnErr result (self.new ≡ self.old) }
    {
        match self.find(key)? {
            Some(found) => {
                // What is found passed the scan, and its patterns were built.
                let _ = found.document();
                Ok(found)
            }
            None => self.compiled_and_kept(alloc, key, document),
        }
    }

    // The document of a key that is new, compiled, and kept where memory suffices.
    fn compiled_and_kept(
        &mut self,
        alloc: Global,
        key: &Rc<Key>,
        document: &Doc,
    ) -> Result<Rc<Compiled>, Fault>
        requires new { has_key self.old key.now.value ≡ false }
        requires reads { is_read_as key.now.value.1 (value document.now) ≡ true }
        ensures base { IfOk result (λ c. compiled_base c.value ≡ key.now.value.0) }
        ensures value { IfOk result (λ c. compiled_value c.value ≡ value document.now) }
        ensures sound { OnOk result (scan_fault key.now.value.0 (value document.now) ≡ None) }
        ensures regular { OnOk result (is_regular regular_search (value document.now) ≡ true) }
        ensures err { IfErr result
            (λ f. f ≢ Fault.NoRoom → Refuses key.now.value.0 (value document.now) (fault_view f)) }
        ensures kept { OnOk result (IsUsed self.old key.now.value self.new) }
        ensures refused { OnErr result (self.new ≡ self.old) }
    {
        let compiled = compiled_anew(alloc, &split(key.base()), document)?;
        self.keep(key, &compiled);
        Ok(compiled)
    }

    // The document that is kept under this key, which is now the most recently used.
    fn find(&mut self, key: &Rc<Key>) -> Result<Option<Rc<Compiled>>, AllocError>
        ensures found { IfOk result (λ o. IfSome o (λ c. IsMadeBy key.now.value c.value)) }
        ensures used { IfOk result
            (λ o. IfSome o (λ c. self.new ≡ cache_after_use self.old key.now.value)) }
        ensures absent { IfOk result (λ o. o ≡ None → has_key self.old key.now.value ≡ false) }
        ensures same { IfOk result (λ o. o ≡ None → self.new ≡ self.old) }
        ensures err { OnErr result (self.new ≡ self.old) }
    {
        match self.entries.peek(key) {
            Some(found) => {
                let found = found.clone()?;
                self.entries.promote(key);
                // The number shows that no key stands twice.
                let _ = self.entries.len();
                Ok(Some(found))
            }
            None => Ok(None),
        }
    }

    // Keeps a document under a key that is new, where memory suffices.
    fn keep(&mut self, key: &Rc<Key>, compiled: &Rc<Compiled>)
        requires new { has_key self.old key.now.value ≡ false }
        requires compiled { IsMadeBy key.now.value compiled.now.value }
        ensures { IsUsed self.old key.now.value self.new }
    {
        // The number shows that there may be some.
        let _ = self.entries.len();
        let key_copy: Result<_, _> = key.clone();
        let compiled_copy: Result<_, _> = compiled.clone();
        if let (Ok(key), Ok(compiled)) = (key_copy, compiled_copy) {
            let _ = self.entries.put(key, compiled);
        }
    }
}
