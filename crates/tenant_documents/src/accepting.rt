//! A document that was sent, before any registry judges it.

ghost use Rattle.std.specs.Prelude.{IfErr, IfOk};
ghost use Rattle.definitions.specs.Resolution.{base_form};
ghost use Rattle.faults.specs.View.{fault_view};
ghost use Rattle.json_doc.specs.Docs.{value};
ghost use Rattle.stored_documents.specs.StoredDocuments.{stored_view};
ghost use Rattle.tenant_documents.specs.Puts.{IsSent, IsRefused, IsUnder, RefusesUnder};

use json_doc::{Doc, Scratch};
use requests::Fault;
use shared_cache::Cache;
use std::alloc::Global;
use stored_documents::Stored;
use tenants_file::read_body_with;
use uri_ref::{base_form, split};

// The document that the body spells under the URI, scanned and with its patterns built.
pub(crate) fn accept(
    alloc: Global,
    scratch: &mut Scratch,
    cache: &mut Cache,
    uri: &str,
    body: &[u8],
) -> Result<Stored, Fault>
    ensures ok { IfOk result (λ s. IsSent uri.now body.now (stored_view s)) }
    ensures err { IfErr result (λ f. IsRefused uri.now body.now (fault_view f)) }
{
    let base = base_form(alloc, uri)?;
    let document = read_body_with(alloc, scratch, body)?;
    Stored::of(alloc, cache, &split(base.as_str()), &document)
}

// The document that was read, taken to stand under the URI, scanned and with its patterns built.
pub(crate) fn accept_document(
    alloc: Global,
    cache: &mut Cache,
    uri: &str,
    document: &Doc,
) -> Result<Stored, Fault>
    ensures ok { IfOk result (λ s. IsUnder (base_form uri.now) (value document.now)
        (stored_view s)) }
    ensures err { IfErr result (λ f. RefusesUnder (base_form uri.now) (value document.now)
        (fault_view f)) }
{
    let base = base_form(alloc, uri)?;
    Stored::of(alloc, cache, &split(base.as_str()), document)
}
