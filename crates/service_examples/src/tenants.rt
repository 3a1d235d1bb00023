//! Files of tenants, bodies of requests, and batches of documents.

use crate::texts::{expect_like, filled};
use json_doc::{read, write};
use std::alloc::Global;
use std::process::Abort;
use tenants_file::{Fault, read_batch, read_body, read_tenants};

// Each tenant's key, documents and bytes.
fn tenants_told(alloc: Global, file: &[u8]) -> Result<String, Fault> {
    let mut line = String::new(alloc);
    for tenant in &read_tenants(alloc, file)? {
        let (key, documents, bytes) = (&tenant.key, tenant.documents, tenant.bytes);
        line.push_str(format!(in alloc; "'{key}' {documents} {bytes};")?.as_str())?;
    }
    Ok(line)
}

// Each entry's URI and document.
fn batch_told(alloc: Global, text: &[u8]) -> Result<String, Fault> {
    let mut line = String::new(alloc);
    let batch = read(alloc, text)?;
    for entry in &read_batch(alloc, &batch)? {
        let schema = write(alloc, entry.schema)?;
        line.push_str(format!(in alloc; "'{}' {schema};", entry.uri)?.as_str())?;
    }
    Ok(line)
}

#[derive(Clone, Copy)]
enum Form {
    Tenants,
    Body,
    Batch,
}

fn read_as(alloc: Global, form: Form, text: &str) -> Result<String, Fault> {
    let text = filled(alloc, text)?;
    match form {
        Form::Tenants => tenants_told(alloc, text.as_bytes()),
        Form::Body => Ok(write(alloc, &read_body(alloc, text.as_bytes())?)?),
        Form::Batch => batch_told(alloc, text.as_bytes()),
    }
}

// Why a text is read so or refused, its form, the text, and what it is read as, or the fault.
const TEXTS: &[(&str, Form, &str, &str)] = &[
    (
        "tenants stand in the file's order, and other members are ignored (HTTP.md)",
        Form::Tenants,
        r#"{"tenants":[{"bytes":1000000,"documents":100,"key":"k1"},
        {"key":"","note":null,"bytes":18446744073709551615,"documents":4294967295}],"note":1}"#,
        "'k1' 100 1000000;'' 4294967295 18446744073709551615;",
    ),
    (
        "a file may have no tenant",
        Form::Tenants,
        r#"{"tenants":[]}"#,
        "",
    ),
    (
        "reading compares no keys: a new server does",
        Form::Tenants,
        r#"{"tenants":[{"bytes":1,"documents":1,"key":"k1"},{"bytes":1,"documents":1,"key":"k1"}]}"#,
        "'k1' 1 1;'k1' 1 1;",
    ),
    (
        "a file is an object (HTTP.md)",
        Form::Tenants,
        "[]",
        "35 BadTenants",
    ),
    (
        "a file has the member `tenants` (HTTP.md)",
        Form::Tenants,
        "{}",
        "35 BadTenants",
    ),
    (
        "`tenants` is an array (HTTP.md)",
        Form::Tenants,
        r#"{"tenants":{}}"#,
        "35 BadTenants",
    ),
    (
        "a tenant is an object (HTTP.md)",
        Form::Tenants,
        r#"{"tenants":[[]]}"#,
        "35 BadTenants",
    ),
    (
        "bytes are no number below 0",
        Form::Tenants,
        r#"{"tenants":[{"bytes":-1,"documents":100,"key":"k1"}]}"#,
        "35 BadTenants",
    ),
    (
        "documents are no number below 0",
        Form::Tenants,
        r#"{"tenants":[{"bytes":1,"documents":-1,"key":"k1"}]}"#,
        "35 BadTenants",
    ),
    (
        "documents are at most 2^32 - 1 (LIMITS.md)",
        Form::Tenants,
        r#"{"tenants":[{"bytes":1,"documents":4294967296,"key":"k1"}]}"#,
        "35 BadTenants",
    ),
    (
        "a tenant has a key (HTTP.md)",
        Form::Tenants,
        r#"{"tenants":[{"bytes":1,"documents":100}]}"#,
        "35 BadTenants",
    ),
    (
        "a key is a string (HTTP.md)",
        Form::Tenants,
        r#"{"tenants":[{"bytes":1,"documents":100,"key":1}]}"#,
        "35 BadTenants",
    ),
    (
        "each tenant has its most documents (HTTP.md)",
        Form::Tenants,
        r#"{"tenants":[{"bytes":1,"documents":1,"key":"k1"},{"bytes":1,"key":"k2"}]}"#,
        "35 BadTenants",
    ),
    (
        "an empty text is no JSON (RFC 8259, 2)",
        Form::Tenants,
        "",
        "1 BadJson",
    ),
    (
        "a text that is no JSON is refused before its shape",
        Form::Tenants,
        r#"{"tenants":[1}"#,
        "1 BadJson",
    ),
    (
        "numbers are judged before the shape",
        Form::Tenants,
        r#"{"tenants":1.0}"#,
        "2 BadNumber",
    ),
    (
        "numbers are judged in a file of any shape",
        Form::Tenants,
        "[0.5]",
        "2 BadNumber",
    ),
    (
        "a body of 1,048,576 bytes is the longest (LIMITS.md)",
        Form::Body,
        "5«1048575* »",
        "5",
    ),
    (
        "a body of 1,048,577 bytes is too long (LIMITS.md)",
        Form::Body,
        "5«1048576* »",
        "26 TooLarge",
    ),
    ("a body is JSON (HTTP.md)", Form::Body, "[1", "1 BadJson"),
    (
        "a body's numbers are whole numbers of 64 bits (HTTP.md)",
        Form::Body,
        "[1.5]",
        "2 BadNumber",
    ),
    (
        "an empty body is no JSON (RFC 8259, 2)",
        Form::Body,
        "",
        "1 BadJson",
    ),
    (
        "entries stand in the batch's order, and other members are ignored",
        Form::Batch,
        r#"{"note":1,"put":[{"schema":{},"uri":"https://ex.org/a"},{"note":1,"schema":true,"uri":""}]}"#,
        "'https://ex.org/a' {};'' true;",
    ),
    (
        "a batch has one entry at least (LIMITS.md)",
        Form::Batch,
        r#"{"put":[]}"#,
        "42 BadBatch",
    ),
    (
        "a batch of 64 entries is the largest (LIMITS.md)",
        Form::Batch,
        r#"{"put":[{"schema":{},"uri":"https://ex.org/a"}«63*,{"schema":{},"uri":"https://ex.org/a"}»]}"#,
        "«64*'https://ex.org/a' {};»",
    ),
    (
        "a batch of 65 entries is too large (LIMITS.md)",
        Form::Batch,
        r#"{"put":[{"schema":{},"uri":"https://ex.org/a"}«64*,{"schema":{},"uri":"https://ex.org/a"}»]}"#,
        "42 BadBatch",
    ),
    (
        "a batch is an object (HTTP.md)",
        Form::Batch,
        "[]",
        "42 BadBatch",
    ),
    (
        "a batch has the member `put` (HTTP.md)",
        Form::Batch,
        "{}",
        "42 BadBatch",
    ),
    (
        "`put` is an array (HTTP.md)",
        Form::Batch,
        r#"{"put":{}}"#,
        "42 BadBatch",
    ),
    (
        "an entry has a URI (HTTP.md)",
        Form::Batch,
        r#"{"put":[{"schema":{}}]}"#,
        "42 BadBatch",
    ),
    (
        "an entry has a schema (HTTP.md)",
        Form::Batch,
        r#"{"put":[{"uri":"https://ex.org/a"}]}"#,
        "42 BadBatch",
    ),
    (
        "an entry's URI is a string (HTTP.md)",
        Form::Batch,
        r#"{"put":[{"schema":{},"uri":1}]}"#,
        "42 BadBatch",
    ),
    (
        "an entry is an object (HTTP.md)",
        Form::Batch,
        r#"{"put":[{"schema":{},"uri":"https://ex.org/a"},1]}"#,
        "42 BadBatch",
    ),
];

fn expect_read(rt: &impl Abort, alloc: Global, row: &(&str, Form, &str, &str)) {
    let (why, form, text, wanted) = *row;
    expect_like(rt, alloc, read_as(alloc, form, text), wanted, why);
}

#[test]
fn texts_are_read_or_refused(rt: HostRuntime) {
    for row in TEXTS {
        expect_read(&rt, rt.alloc(), row);
    }
}
