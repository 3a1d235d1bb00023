//! Connections to a hub whose documents a store keeps.

ghost use Rattle.std.specs.Prelude.{OnOk};
ghost use Rattle.http_front.specs.Running.{IsHubKept};
ghost use Rattle.http_front.specs.SideBySide.{AreKeptSideBySide};
ghost use Rattle.http_front.specs.Stored.{FindsThese};
ghost use Rattle.stored_hub.specs.Storing.{Finds};
ghost use Rattle.tenant_hub.specs.Hubs.{hub_view};

use crate::hub_handler::HasHub;
use crate::noted_hub::Journal;
use crate::running::serve_connection;
use crate::side_by_side::serve_noted;
use connections::Outage;
use serving::{ByteReader, ByteWriter, Failure};
use serving_many::{Network, Observer};
use std::alloc::Global;
use stored_hub::{DocumentStore, StoredHub};
use tenant_hub::Hub;

impl<D: DocumentStore> HasHub for StoredHub<D> {
    fn hub(&self) -> &Hub {
        StoredHub::hub(self)
    }
}

/// Serves connections side by side by registries whose documents a store keeps, as [`serve_noted`] does, whose error this
/// is, and gives them back. Each tenant is served as if it were alone.
///
/// Where an opening would have found these registries before, it finds after a crash at any moment those behind a first part
/// of what happened, and all that was written on a connection is a first part of what that part sends. At an end without an
/// error it finds those that were served last.
pub fn serve_stored_side_by_side<D: DocumentStore, N: Network, O: Observer, J: Journal>(
    alloc: Global,
    hub: StoredHub<D>,
    journal: &J,
    network: &mut N,
    observer: &mut O,
    most_memory: usize,
) -> (StoredHub<D>, Result<(), Outage>)
    ensures kept { FindsThese D.recovers hub.store (hub_view hub.hub)
        → AreKeptSideBySide (hub_view hub.hub)
        (Finds D.recovers result.0.store (hub_view result.0.hub))
        (N.reads network.old) (N.writes network.old) result.1
        (N.reads network.new) (N.writes network.new) }
    ensures durable { OnOk result.1
        (FindsThese D.recovers result.0.store (hub_view result.0.hub)) }
{
    serve_noted(alloc, hub, journal, network, observer, most_memory)
}

/// Serves one connection by registries whose documents a store keeps, as [`serve_connection`] does, whose error this is, and
/// gives them back.
///
/// Where an opening would have found these registries before, it finds after a crash at any moment those behind a first part
/// of the connection's stream, and all that was written is a first part of what that part is sent. At the end it finds those
/// that answered last, unless settling failed.
pub fn serve_stored_connection<D: DocumentStore, R: ByteReader, W: ByteWriter>(
    alloc: Global,
    hub: StoredHub<D>,
    reader: &mut R,
    writer: &mut W,
) -> (StoredHub<D>, Result<(), Failure>)
    ensures { FindsThese D.recovers hub.store (hub_view hub.hub)
        → IsHubKept (hub_view hub.hub) (Finds D.recovers result.0.store (hub_view result.0.hub))
        (R.reads reader.old) (W.writes writer.old) result.1
        (R.reads reader.new) (W.writes writer.new) }
{
    serve_connection(alloc, hub, reader, writer)
}
