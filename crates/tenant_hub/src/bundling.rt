//! Bundles of a source's documents.

ghost use Rattle.std.specs.Prelude.{◌≡◌, ◌≢◌, IfOk, IfErr, is_some, string_bytes};
ghost use Rattle.definitions.specs.Documents.{document_of};
ghost use Rattle.definitions.specs.Patterns.{regular_search};
ghost use Rattle.definitions.specs.Reach.{reach};
ghost use Rattle.definitions.specs.Registries.{Registry, bundled, bundled_from, documents_seen, refused};
ghost use Rattle.definitions.specs.Resolution.{base_form};
ghost use Rattle.definitions.specs.Runs.{IsAnswer};
ghost use Rattle.faults.specs.View.{fault_view};
ghost use Rattle.requests.specs.Views.{reply_view};
ghost use Rattle.tenant_hub.specs.SourceReplies.{bundle_over};

use bundler::bundle;
use json_doc::write;
use linker::{Source, link};
use requests::{Fault, Reply};
use schema_scan::canonical;
use std::alloc::Global;
use uri_ref::base_form;

// The compound document of the URI, made of the source's documents.
//
// The first of these faults is answered: `BadUri`; `NotFound` where this is no document's canonical URI; `Unresolved`;
// `BundleClash`, `BundleTooLarge`. `NoRoom` may take the place of any answer. The source keeps the documents that it had.
pub(crate) fn bundle_reply<S: Source>(alloc: Global, source: &mut S, uri: &str) -> Reply
    ensures answer { (g : Registry) → documents_seen g ≡ S.documents source.old
        → IsAnswer regular_search g (bundled_from uri.now) (reply_view result) g }
    ensures same { S.documents source.new ≡ S.documents source.old }
{
    match bundle_text(alloc, source, uri) {
        Ok(text) => Reply::Bundled(text),
        Err(fault) => Reply::Refused(fault),
    }
}

fn bundle_text<S: Source>(alloc: Global, source: &mut S, uri: &str) -> Result<String, Fault>
    ensures ok { IfOk result (λ t. bundle_over (S.documents source.old) (base_form uri.now)
        ≡ bundled (string_bytes t)) }
    ensures err { IfErr result (λ f. f ≢ Fault.NoRoom
        → bundle_over (S.documents source.old) (base_form uri.now) ≡ refused (fault_view f)) }
    ensures same { S.documents source.new ≡ S.documents source.old }
{
    let base = base_form(alloc, uri)?;
    if !has_document(alloc, source, base.as_str())? {
        return Err(Fault::NotFound);
    }
    let linked = link(alloc, source, base.as_str())?;
    let whole = bundle(alloc, &linked)?;
    Ok(write(alloc, &whole)?)
}

// Whether the URI is the canonical URI of a document that it reaches. It may be that of an embedded resource, too.
fn has_document<S: Source>(alloc: Global, source: &mut S, uri: &str) -> Result<bool, Fault>
    ensures ok { IfOk result (λ there. there
        ≡ is_some (document_of (reach (S.documents source.old) uri.now) uri.now)) }
    ensures err { IfErr result (λ f. f ≡ Fault.NoRoom) }
    ensures same { S.documents source.new ≡ S.documents source.old }
{
    match source.holding(alloc, uri)? {
        Some(document) => Ok(uri == canonical(&document)),
        None => Ok(false),
    }
}
