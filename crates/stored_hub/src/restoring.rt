//! A row is put back.

ghost use Rattle.std.specs.Prelude.{◌≡◌, Some, IfErr, IsTrue, OnOk, string_bytes};
ghost use Rattle.stored_rows.specs.RowViews.{row_view};
ghost use Rattle.stored_hub.specs.DigestedKeys.{digests_in};
ghost use Rattle.stored_hub.specs.Opening.{IsPutBack};
ghost use Rattle.stored_hub.specs.RefusedOpenings.{IsRefusedRow, digests_of};
ghost use Rattle.tenant_hub.specs.Hubs.{hub_view};
ghost use Rattle.tenant_hub.specs.PutBack.{stored_texts_of};

use crate::digested_key::DigestedKey;
use crate::digested_keys::key_of;
use crate::refusals::RowRefusal;
use requests::Reply;
use std::alloc::Global;
use stored_rows::DocumentRow;
use tenant_hub::Hub;

// Puts the row's document back into the registry of its tenant. Where it is refused, the hub may have it all the same.
pub(crate) fn restore_row(
    alloc: Global,
    hub: &mut Hub,
    keys: &[DigestedKey],
    row: &DocumentRow,
) -> Result<(), RowRefusal>
    requires keys { digests_in keys.now ≡ digests_of (hub_view hub.old) }
    ensures ok { OnOk result (IsPutBack (hub_view hub.old) (row_view row.now) (hub_view hub.new)) }
    ensures err { IfErr result (IsRefusedRow (hub_view hub.old) (row_view row.now)) }
{
    let Some((place, key)) = key_of(keys, row.tenant.as_str()) else {
        return Err(RowRefusal::UnknownTenant);
    };
    match hub.restore(alloc, key, row.base.as_str(), row.text.as_bytes()) {
        Reply::Stored(uri, false) => {
            if uri == row.uri && is_as_written(hub, key, row) {
                Ok(())
            } else {
                Err(RowRefusal::Altered(place))
            }
        }
        Reply::Refused(fault) => Err(RowRefusal::Refused(place, fault)),
        _ => Err(RowRefusal::Altered(place)),
    }
}

// Whether the hub has the document of the row with the very texts of the row.
fn is_as_written(hub: &Hub, key: &str, row: &DocumentRow) -> bool
    ensures { IsTrue result → stored_texts_of (hub_view hub.now) key.now (string_bytes row.now.uri)
        ≡ Some (string_bytes row.now.base, string_bytes row.now.text) }
{
    match hub.stored(key, row.uri.as_str()) {
        Some((base, text)) => base == row.base.as_str() && text == row.text.as_str(),
        None => false,
    }
}
