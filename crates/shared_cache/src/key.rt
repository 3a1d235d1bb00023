//! What a compiled document is kept under.

ghost use Rattle.std.specs.Prelude.{◌≡◌, ◌≤◌, true, IfErr, IfOk};
ghost use Rattle.std.proofs.Common.{rules};
ghost use Rattle.std.specs.Cmp.Rules.{comparing, hashing};
ghost use Rattle.std.specs.Hash as fed;
ghost use Rattle.definitions.specs.Caches.{same_key};
ghost use Rattle.definitions.specs.Texts.{text};
ghost use Rattle.definitions.specs.Uris.{recompose};
ghost use Rattle.definitions.specs.Values.{nesting};
ghost use Rattle.json_doc.specs.Docs.{value};
ghost use Rattle.shared_cache.specs.Digests.{digest_of};
ghost use Rattle.shared_cache.specs.Readings.{is_read_as, read_value};

use faults::Fault;
use json_doc::{Doc, write};
use std::alloc::Global;
use std::hash::{FoldHasher, Hash, Hasher};
use std::marker::Model;
use uri_ref::{Parts, recompose};

/// The text of a base and the compact text of a document, with a digest of both that is made once.
///
/// Contracts see it as the pair of the two texts.
#[derive(Drop)]
pub struct Key {
    digest: u64,
    base: String,
    text: String,
}

impl Model for Key {
    ghost use Rattle.std.specs.Prelude.{◌≡◌, string_bytes};
    ghost use Rattle.definitions.specs.Caches.{CacheKey};
    ghost use Rattle.shared_cache.specs.Digests.{digest_of};

    ghost Value = { CacheKey };

    ghost view = { λ k. (string_bytes k.base, string_bytes k.text) };

    ghost invariant = { λ k. k.digest ≡ digest_of (string_bytes k.base, string_bytes k.text) };
}

impl Key {
    /// The key of the document under this base. The only error is want of memory.
    ///
    /// The text of a document that nests no deeper than 127 is read as its value again. It takes no more room than its bytes.
    pub fn of(alloc: Global, base: &Parts, document: &Doc) -> Result<Key, Fault>
        ensures ok { IfOk result (λ k. k ≡ (recompose base.now, text (value document.now))) }
        ensures reads_back { IfOk result
            (λ k. nesting (value document.now) ≤ 127 → is_read_as k.1 (value document.now) ≡ true) }
        ensures spells { IfOk result
            (λ k. nesting (value document.now) ≤ 127 → read_value k.1 ≡ value document.now) }
        ensures err { IfErr result (λ f. f ≡ Fault.NoRoom) }
    {
        let base = recompose(alloc, base)?;
        let mut text = write(alloc, document)?;
        text.shrink_to_fit();
        let digest = digest(base.as_str(), text.as_str());
        Ok(Key { digest, base, text })
    }

    /// The base's text.
    pub fn base(&self) -> &str
        ensures { result.now ≡ self.now.0 }
    {
        &self.base
    }

    /// The document's compact text.
    pub fn text(&self) -> &str
        ensures { result.now ≡ self.now.1 }
    {
        &self.text
    }
}

#[tactic(auto, unfolding(crate::specs::Digests::digest_of))]
fn digest(base: &str, text: &str) -> u64
    ensures { result ≡ digest_of (base.now, text.now) }
{
    let mut hasher = FoldHasher::default();
    base.hash(&mut hasher);
    text.hash(&mut hasher);
    hasher.finish()
}

impl PartialEq for Key {
    ghost eq = { same_key };

    ghost laws = { Prim.search (comparing, rules) };

    fn eq(&self, other: &Key) -> bool {
        self.digest == other.digest && self.base == other.base && self.text == other.text
    }
}

impl Eq for Key {
    ghost laws = { Prim.search (comparing, rules) };
}

impl Hash for Key {
    ghost hash_input = { λ k. fed.u64 (digest_of k) };

    ghost respects_eq = { Prim.search (hashing, rules) };

    fn hash<H: Hasher>(&self, state: &mut H) {
        self.digest.hash(state);
    }
}
