//! A document's row as an entry of the table.

ghost use Rattle.std.specs.Prelude.{◌≡◌, IfOk, string_bytes};
ghost use Rattle.sqlite_value.specs.declared.value.Value.TheVariants.{Text};
ghost use Rattle.sqlite_value.specs.Order.{column};
ghost use Rattle.sqlite_value.specs.Value.{owned};
ghost use Rattle.stored_rows.specs.RowViews.{row_view, row_ref_view};
ghost use Rattle.document_file.specs.Entries.{base_value, entry_of, key_of};

use sqlite_value::row::Row;
use sqlite_value::value::ValueRef;
use std::alloc::{AllocError, Global};
use stored_rows::{DocumentRow, RowRef, StoreFault};

/// The columns by which a document is found.
pub(crate) fn key_entry(alloc: Global, tenant: &str, uri: &str) -> Result<Row, AllocError>
    ensures { IfOk result (λ entry. entry ≡ key_of tenant.now uri.now) }
{
    let mut entry = Row::new(alloc);
    entry.push(ValueRef::Text(tenant.as_bytes()))?;
    entry.push(ValueRef::Text(uri.as_bytes()))?;
    Ok(entry)
}

/// The column of a base: NULL where it is the URI.
fn base_column<'a>(uri: &str, base: &'a str) -> ValueRef<'a>
    ensures { owned result ≡ base_value uri.now base.now }
{
    if base == uri {
        ValueRef::Null
    } else {
        ValueRef::Text(base.as_bytes())
    }
}

/// All columns of a document.
pub(crate) fn row_entry(alloc: Global, row: RowRef<'_>) -> Result<Row, AllocError>
    ensures { IfOk result (λ entry. entry ≡ entry_of (row_ref_view row.entry)) }
{
    let mut entry = key_entry(alloc, row.tenant, row.uri)?;
    entry.push(base_column(row.uri, row.base))?;
    entry.push(ValueRef::Text(row.text.as_bytes()))?;
    Ok(entry)
}

/// The text in a column. It is damaged where something else stands there, or bytes that aren't UTF-8.
fn text_at(alloc: Global, entry: &Row, at: usize) -> Result<String, StoreFault>
    ensures { IfOk result (λ text. column entry.now at ≡ Text (string_bytes text)) }
{
    let ValueRef::Text(bytes) = entry.get(at) else {
        return Err(StoreFault::Damaged);
    };
    let Ok(text) = str::from_utf8(bytes) else {
        return Err(StoreFault::Damaged);
    };
    match String::from_str(alloc, text) {
        Ok(text) => Ok(text),
        Err(_) => Err(StoreFault::NoRoom),
    }
}

/// The base of an entry with this URI. It is damaged where it stands there and is the URI.
fn base_at(alloc: Global, entry: &Row, uri: &str) -> Result<String, StoreFault>
    ensures { IfOk result (λ base. column entry.now 2 ≡ base_value uri.now (string_bytes base)) }
{
    if let ValueRef::Null = entry.get(2) {
        return match String::from_str(alloc, uri) {
            Ok(base) => Ok(base),
            Err(_) => Err(StoreFault::NoRoom),
        };
    }
    let base = text_at(alloc, entry, 2)?;
    if base.as_str() == uri {
        return Err(StoreFault::Damaged);
    }
    Ok(base)
}

/// The document of an entry. It is damaged unless its columns are a tenant, a URI, a base and a text.
pub(crate) fn entry_row(alloc: Global, entry: &Row) -> Result<DocumentRow, StoreFault>
    ensures { IfOk result (λ row. entry.now ≡ entry_of (row_view row)) }
{
    if entry.len() != 4 {
        return Err(StoreFault::Damaged);
    }
    let uri = text_at(alloc, entry, 1)?;
    Ok(DocumentRow {
        tenant: text_at(alloc, entry, 0)?,
        base: base_at(alloc, entry, uri.as_str())?,
        uri,
        text: text_at(alloc, entry, 3)?,
    })
}
