//! The file of a server's tenants.

ghost use Rattle.std.specs.Prelude.{◌≡◌, ◌≢◌, Ok, Err, None, Some, IfOk, IfErr, map, option_map};
ghost use Rattle.definitions.specs.Lists.{each};
ghost use Rattle.definitions.specs.Tenants.{file_tenants, tenants_of, tenant_in};
ghost use Rattle.faults.specs.View.{fault_view};
ghost use Rattle.json_doc.specs.Docs.{value};
ghost use Rattle.tenants_file.specs.Tenants.{tenant_view, listed_tenant_view};

use crate::member_values::{array_at, natural_at, small_natural_at};
use json_doc::{Doc, Fault, read};
use std::alloc::Global;

/// A tenant of a server: its key, and what it may store.
#[derive(Debug, Drop, PartialEq)]
pub struct Tenant {
    /// The key that its requests come with.
    pub key: String,
    /// How many documents it may have.
    pub documents: u32,
    /// How many bytes the compact texts of its documents may have together.
    pub bytes: u64,
}

/// Reads a tenants' file, as `{"tenants":[{"bytes":1000000,"documents":100,"key":"k1"}]}`: the tenants in the order of the
/// file. Other members are ignored; the list may be empty. Keys are any texts here, also equal ones:
/// [`server_fault`](crate::server_fault) judges them.
///
/// The first of these faults is answered: `BadJson` and `BadNumber` of the whole text, then `BadTenants` where it has
/// another shape, a number of documents that 32 bits don't hold, or a number below 0. `NoRoom` may take the place of any
/// answer.
pub fn read_tenants(alloc: Global, bytes: &[u8]) -> Result<Vec<Tenant>, Fault>
    ensures ok { IfOk result (λ ts. file_tenants bytes.now ≡ Ok (map tenant_view ts.items)) }
    ensures err { IfErr result
        (λ f. f ≢ Fault.NoRoom → file_tenants bytes.now ≡ Err (fault_view f)) }
{
    let file = read(alloc, bytes)?;
    tenants_of(alloc, &file)
}

fn tenants_of(alloc: Global, file: &Doc) -> Result<Vec<Tenant>, Fault>
    ensures ok { IfOk result
        (λ ts. tenants_of (Ok (value file.now)) ≡ Ok (map tenant_view ts.items)) }
    ensures err { IfErr result (λ f. f ≢ Fault.NoRoom
        → tenants_of (Ok (value file.now)) ≡ Err (fault_view f)) }
{
    match array_at(file, "tenants") {
        Some(items) => each_tenant(alloc, items),
        None => Err(Fault::BadTenants),
    }
}

fn each_tenant(alloc: Global, items: &[Doc]) -> Result<Vec<Tenant>, Fault>
    ensures ok { IfOk result
        (λ ts. each tenant_in (map value items.now) ≡ Some (map tenant_view ts.items)) }
    ensures err { IfErr result (λ f. f ≢ Fault.NoRoom
        → (f ≡ Fault.BadTenants) × (each tenant_in (map value items.now) ≡ None)) }
{
    let mut tenants = Vec::with_capacity(alloc, items.len())?;
    for item in items {
        tenants.push(tenant_of(alloc, item)?)?;
    }
    Ok(tenants)
}

fn tenant_of(alloc: Global, item: &Doc) -> Result<Tenant, Fault>
    ensures ok { IfOk result (λ t. tenant_in (value item.now) ≡ Some (tenant_view t)) }
    ensures err { IfErr result (λ f. f ≢ Fault.NoRoom
        → (f ≡ Fault.BadTenants) × (tenant_in (value item.now) ≡ None)) }
{
    match parts_of(item) {
        Some((key, documents, bytes)) => Ok(Tenant {
            key: String::from_str(alloc, key)?,
            documents,
            bytes,
        }),
        None => Err(Fault::BadTenants),
    }
}

// The key, the number of documents and the number of bytes.
fn parts_of(item: &Doc) -> Option<(&str, u32, u64)>
    ensures { option_map listed_tenant_view result ≡ tenant_in (value item.now) }
{
    let key = item.text_at("key")?;
    let documents = small_natural_at(item, "documents")?;
    let bytes = natural_at(item, "bytes")?;
    Some((key, documents, bytes))
}
