//! What a reply says is changed, written into a store.

ghost use Rattle.std.specs.Prelude.{◌≡◌, OnOk, map};
ghost use Rattle.requests.specs.Views.{reply_view, stored_entry_view};
ghost use Rattle.stored_rows.specs.Rows.{digest, document_at, with_document, with_each};
ghost use Rattle.stored_hub.specs.Storing.{RecoversNoMore, WritesInto, WritesNew, WritesReply, is_change};
ghost use Rattle.tenant_hub.specs.Hubs.{hub_view};

use crate::digested_key::DigestedKey;
use crate::digested_keys::tenant_of;
use requests::{Reply, StoredEntry};
use std::alloc::Global;
use stored_rows::{DocumentStore, RowRef, StoreFault, digest};
use tenant_hub::Hub;

// Whether the reply grants a change.
pub(crate) fn is_change(reply: &Reply) -> bool
    ensures { result ≡ is_change (reply_view reply.now) }
{
    matches!(
        reply,
        Reply::Stored(..) | Reply::Deleted(_) | Reply::StoredAll(_)
    )
}

// Writes what the reply to the tenant with this key changed, which left the hub. The digest is looked for among the tenants'
// keys, and made where it isn't there.
pub(crate) fn write_change<D: DocumentStore>(
    alloc: Global,
    store: &mut D,
    hub: &Hub,
    keys: &[DigestedKey],
    key: &str,
    reply: &Reply,
) -> Result<(), StoreFault>
    ensures ok { OnOk result (WritesReply D.holds store.old key.now (hub_view hub.now)
        (reply_view reply.now) store.new) }
    ensures recovers { RecoversNoMore D.recovers store.old store.new }
{
    if let Some(tenant) = tenant_of(keys, key) {
        return write_reply(store, hub, key, tenant, reply);
    }
    match digest(alloc, key) {
        Ok(tenant) => write_reply(store, hub, key, tenant.as_str(), reply),
        Err(_) => Err(StoreFault::NoRoom),
    }
}

// Writes what the reply to the tenant with this key changed, as the hub now has it. `tenant` is the digest of the key.
fn write_reply<D: DocumentStore>(
    store: &mut D,
    hub: &Hub,
    key: &str,
    tenant: &str,
    reply: &Reply,
) -> Result<(), StoreFault>
    requires tenant { tenant.now ≡ digest key.now }
    ensures ok { OnOk result (WritesReply D.holds store.old key.now (hub_view hub.now)
        (reply_view reply.now) store.new) }
    ensures recovers { RecoversNoMore D.recovers store.old store.new }
{
    match reply {
        Reply::Stored(uri, false) => write_new(store, hub, key, tenant, uri.as_str()),
        Reply::Stored(uri, true) => write_document(store, hub, key, tenant, uri.as_str()),
        Reply::StoredAll(entries) => write_documents(store, hub, key, tenant, entries),
        Reply::Deleted(uri) => store.delete(tenant, uri.as_str()),
        _ => Ok(()),
    }
}

// Writes the documents that the entries of a batch left.
fn write_documents<D: DocumentStore>(
    store: &mut D,
    hub: &Hub,
    key: &str,
    tenant: &str,
    entries: &[StoredEntry],
) -> Result<(), StoreFault>
    requires tenant { tenant.now ≡ digest key.now }
    ensures ok { OnOk result (WritesInto D.holds store.old
        (with_each key.now (hub_view hub.now) (map stored_entry_view entries.now)) store.new) }
    ensures recovers { RecoversNoMore D.recovers store.old store.new }
{
    for entry in entries {
        write_document(store, hub, key, tenant, entry.uri.as_str())?;
    }
    Ok(())
}

// Writes the document that the tenant has under this canonical URI.
fn write_document<D: DocumentStore>(
    store: &mut D,
    hub: &Hub,
    key: &str,
    tenant: &str,
    uri: &str,
) -> Result<(), StoreFault>
    requires tenant { tenant.now ≡ digest key.now }
    ensures ok { OnOk result (WritesInto D.holds store.old
        (with_document key.now (document_at (hub_view hub.now) key.now uri.now)) store.new) }
    ensures recovers { RecoversNoMore D.recovers store.old store.new }
{
    match hub.stored(key, uri) {
        Some((base, text)) => store.put(RowRef {
            tenant,
            uri,
            base,
            text,
        }),
        None => Ok(()),
    }
}

// Writes the document that the tenant has under this canonical URI, where no row of the tenant has that URI yet.
fn write_new<D: DocumentStore>(
    store: &mut D,
    hub: &Hub,
    key: &str,
    tenant: &str,
    uri: &str,
) -> Result<(), StoreFault>
    requires tenant { tenant.now ≡ digest key.now }
    ensures ok { OnOk result (WritesNew D.holds store.old tenant.now uri.now
        (with_document key.now (document_at (hub_view hub.now) key.now uri.now)) store.new) }
    ensures recovers { RecoversNoMore D.recovers store.old store.new }
{
    match hub.stored(key, uri) {
        Some((base, text)) => store.insert(RowRef {
            tenant,
            uri,
            base,
            text,
        }),
        None => Ok(()),
    }
}
