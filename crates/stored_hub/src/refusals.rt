//! Why a store isn't opened.

ghost use Rattle.std.specs.Prelude.{◌+◌, Some, decimal};
ghost use Rattle.stored_hub.specs.RefusalTexts.{printed_text, row_text};

use requests::Fault;
use std::error::Error;
use std::fmt;
use stored_rows::StoreFault;

/// Why the documents of a store weren't put back. Nothing was written then.
#[derive(Debug, Drop)]
pub enum OpenRefusal {
    /// Memory ran out.
    NoRoom,
    /// A call of the store failed.
    Store(StoreFault),
    /// The keys of two tenants have one digest, so that it couldn't be told whose a row is.
    SameDigest,
    /// A row isn't put back. The text is the canonical URI that stands in it.
    Row(String, RowRefusal),
}

/// Why a row isn't put back.
#[derive(Debug, Drop)]
pub enum RowRefusal {
    /// It doesn't stand behind the row before it, in byte order of tenants and URIs.
    OutOfOrder,
    /// No tenant's key has its digest.
    UnknownTenant,
    /// Its document is refused for this fault by the tenant at this place in the tenants' file, counted from 0.
    Refused(usize, Fault),
    /// Its document has another canonical URI, base or text than the row, or the tenant at this place has one already.
    Altered(usize),
}

// The tenant at this place. It is counted from 1 where it is told.
#[derive(Clone, Copy)]
struct Tenant(usize);

impl fmt::Display for Tenant {
    ghost output = { λ tenant. Some (decimal (tenant.0 + 1)) };

    fn fmt<W: fmt::Write>(&self, f: &mut fmt::Formatter<W>) -> fmt::Result {
        let number = self.0 as u128 + 1;
        write!(f, "{number}")
    }
}

// The row with this URI isn't put back.
#[derive(Clone, Copy)]
struct RefusedRow<'a> {
    uri: &'a str,
    why: &'a RowRefusal,
}

impl fmt::Display for RefusedRow<'_> {
    ghost output = { λ row. Some (row_text row.uri.now row.why.now) };

    fn fmt<W: fmt::Write>(&self, f: &mut fmt::Formatter<W>) -> fmt::Result {
        let uri = self.uri;
        match self.why {
            RowRefusal::OutOfOrder => write!(f, "{uri}: the row stands twice"),
            RowRefusal::UnknownTenant => write!(f, "{uri}: no tenant has the key of its row"),
            RowRefusal::Refused(place, fault) => {
                let tenant = Tenant(*place);
                write!(f, "tenant {tenant}, {uri}: {fault}")
            }
            RowRefusal::Altered(place) => {
                let tenant = Tenant(*place);
                write!(f, "tenant {tenant}, {uri}: the row isn't as it was written")
            }
        }
    }
}

impl fmt::Display for OpenRefusal {
    ghost output = { λ refusal. Some (printed_text refusal) };

    fn fmt<W: fmt::Write>(&self, f: &mut fmt::Formatter<W>) -> fmt::Result {
        match self {
            OpenRefusal::NoRoom => write!(f, "{}", StoreFault::NoRoom),
            OpenRefusal::Store(fault) => write!(f, "{fault}"),
            OpenRefusal::SameDigest => f.write_str("two tenants' keys have one digest"),
            OpenRefusal::Row(uri, why) => {
                let uri = uri.as_str();
                write!(f, "{}", RefusedRow { uri, why })
            }
        }
    }
}

impl Error for OpenRefusal {}
