//! What a tenant asks of its registry and what it is answered.
#![tactic(auto)]

pub use faults::Fault;
use output_texts::Output;
use std::borrow::CowStr;

/// What a tenant asks, as it lies in what was sent, but for a URI that had escapes. A URI isn't resolved yet; a body is at most some
/// bytes, of any content.
#[derive(Debug, Drop, PartialEq)]
pub enum Request<'a> {
    /// Stores the schema document that the bytes spell under the URI.
    Put(CowStr<'a>, &'a [u8]),
    /// Removes the document that is stored under the URI.
    Delete(CowStr<'a>),
    /// Validates the instance that the bytes spell by the resource of the URI.
    Validate(CowStr<'a>, &'a [u8]),
    /// Asks for the compound document of the URI (JSON Schema 2020-12 Core, section 9.3).
    Bundle(CowStr<'a>),
    /// Stores the documents that the bytes spell, or none of them.
    Batch(&'a [u8]),
}

/// A document of a batch that was stored.
#[derive(Debug, Drop, PartialEq)]
pub struct StoredEntry {
    /// The canonical URI.
    pub uri: String,
    /// Whether a document with this canonical URI was there before the batch.
    pub replaced: bool,
}

/// What a request is answered. URIs are canonical.
#[derive(Drop)]
pub enum Reply {
    /// The document is stored; whether one with its canonical URI was there.
    Stored(String, bool),
    /// The document with this canonical URI is removed.
    Deleted(String),
    /// The basic output (Core, section 12.4.2), whose text isn't put together yet.
    Output(Output),
    /// The text of the compound document.
    Bundled(String),
    /// All documents of the batch are stored, in its order.
    StoredAll(Vec<StoredEntry>),
    /// Nothing was done.
    Refused(Fault),
    /// Nothing was done, for a fault of this entry of the batch, counted from 0.
    RefusedAt(usize, Fault),
}
