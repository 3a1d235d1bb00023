//! What the URIs of a registry reach, linked, from one validation to the next. No reply depends on it.

ghost use Rattle.std.specs.Prelude.{IfOk, IfSome, List, string_bytes};
ghost use Rattle.definitions.specs.Schemas.{Document};
ghost use Rattle.tenant_hub.specs.CachedLinks.{AreLinksOf, IsLinkOfBase};

use linker::{Linked, documents};
use lru::LruCache;
use std::alloc::{AllocError, Global};
use std::num::NonZeroUsize;

/// Linked documents by the base forms that they were linked for: those of a registry that were asked for last.
#[derive(Drop)]
pub(crate) struct Links {
    pub(crate) entries: LruCache<String, Linked>,
    // How many documents they reach together, each counted as often as it is reached, and how many they may.
    reached: usize,
    most: usize,
}

impl Links {
    /// No links, of which so many may be kept that they reach at most so many documents together. The only error is want of
    /// memory.
    pub(crate) fn new(alloc: Global, most: usize) -> Result<Links, AllocError>
        ensures { IfOk result (λ links. (ds : List Document) → AreLinksOf ds links) }
    {
        // Each reaches a document at least.
        let capacity = NonZeroUsize::new(most).unwrap_or(NonZeroUsize::MIN);
        Ok(Links {
            entries: LruCache::sparse(alloc, capacity)?,
            reached: 0,
            most,
        })
    }

    /// Lets all links go.
    pub(crate) fn clear(&mut self)
        ensures { (ds : List Document) → AreLinksOf ds self.new }
    {
        self.entries.clear();
        self.reached = 0;
    }

    /// Makes the link of this URI, where there is one, the latest. Most often it is.
    pub(crate) fn promote(&mut self, uri: &str)
        ensures { (ds : List Document) → AreLinksOf ds self.old → AreLinksOf ds self.new }
    {
        if self.latest(uri).is_none() {
            self.entries.promote(uri);
        }
    }

    /// The link that was asked for last, where it is that of this URI, which is a base form then.
    pub(crate) fn latest(&self, uri: &str) -> Option<&Linked>
        ensures { (ds : List Document) → AreLinksOf ds self.now
            → IfSome result (λ linked. IsLinkOfBase ds uri.now linked.now) }
    {
        match self.entries.peek_mru() {
            Some((base, linked)) if base.as_str() == uri => Some(linked),
            _ => None,
        }
    }

    /// Keeps the link of this base form in the place of those that were asked for longest ago; unless it reaches too many documents
    /// to be kept, or memory is wanting for it.
    pub(crate) fn keep(&mut self, uri: String, linked: Linked)
        ensures { (ds : List Document) → AreLinksOf ds self.old
            → IsLinkOfBase ds (string_bytes uri) linked → AreLinksOf ds self.new }
    {
        let reached = documents(&linked).len();
        if reached <= self.most {
            self.make_room(self.most - reached);
            if self.entries.put(uri, linked).is_ok() {
                self.reached = self.reached.saturating_add(reached);
            }
        }
    }

    // Lets links go until those that are left reach at most so many documents.
    fn make_room(&mut self, most: usize)
        ensures { (ds : List Document) → AreLinksOf ds self.old → AreLinksOf ds self.new }
    {
        while self.reached > most {
            match self.entries.pop_lru() {
                Some((_, linked)) => {
                    self.reached = self.reached.saturating_sub(documents(&linked).len());
                }
                None => return,
            }
        }
    }
}
