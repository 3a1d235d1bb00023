//! What new servers are refused for.

use crate::texts::{expect_like, filled};
use std::alloc::Global;
use std::process::Abort;
use tenant_hub::Hub;
use tenants_file::{Fault, Tenant, server_fault};

fn tenant(key: String) -> Tenant {
    Tenant {
        key,
        documents: 1,
        bytes: 1,
    }
}

// So many tenants `k0`, `k1` and so on, and then those with these keys.
fn tenants(alloc: Global, count: usize, keys: &[&str]) -> Result<Vec<Tenant>, Fault> {
    let mut tenants = Vec::new(alloc);
    for number in 0..count {
        tenants.push(tenant(format!(in alloc; "k{number}")?))?;
    }
    for key in keys {
        tenants.push(tenant(filled(alloc, key)?))?;
    }
    Ok(tenants)
}

// The text of no fault is empty.
fn refusal(alloc: Global, count: usize, keys: &[&str], capacity: usize) -> Result<String, Fault> {
    let tenants = tenants(alloc, count, keys)?;
    match server_fault(&tenants, capacity) {
        Some(fault) => Err(fault),
        None => Ok(String::new(alloc)),
    }
}

fn hub_refusal(
    alloc: Global,
    count: usize,
    keys: &[&str],
    capacity: usize,
) -> Result<String, Fault> {
    Hub::new(alloc, tenants(alloc, count, keys)?, capacity, None)?;
    Ok(String::new(alloc))
}

/// How many tenants there are before those with these keys, the capacity, and the fault.
struct Server {
    why: &'static str,
    count: usize,
    keys: &'static [&'static str],
    capacity: usize,
    fault: &'static str,
}

const SERVERS: &[Server] = &[
    Server {
        why: "one document is the least that a cache keeps (LIMITS.md)",
        count: 0,
        keys: &[],
        capacity: 1,
        fault: "",
    },
    Server {
        why: "4,096 documents are the most that a cache keeps (LIMITS.md)",
        count: 0,
        keys: &[],
        capacity: 4096,
        fault: "",
    },
    Server {
        why: "a cache doesn't keep 4,097 documents (LIMITS.md)",
        count: 0,
        keys: &[],
        capacity: 4097,
        fault: "21 BadCapacity",
    },
    Server {
        why: "a cache keeps one document at least (LIMITS.md)",
        count: 0,
        keys: &[],
        capacity: 0,
        fault: "21 BadCapacity",
    },
    Server {
        why: "the capacity is judged before tenants are counted",
        count: 65,
        keys: &[],
        capacity: 0,
        fault: "21 BadCapacity",
    },
    Server {
        why: "the capacity is judged first, whatever the last key is",
        count: 64,
        keys: &["k64"],
        capacity: 0,
        fault: "21 BadCapacity",
    },
    Server {
        why: "too large a capacity is told first as well",
        count: 64,
        keys: &["k64"],
        capacity: 4097,
        fault: "21 BadCapacity",
    },
    Server {
        why: "64 tenants are the most (LIMITS.md)",
        count: 64,
        keys: &[],
        capacity: 256,
        fault: "",
    },
    Server {
        why: "tenants are counted before their keys are judged",
        count: 64,
        keys: &[""],
        capacity: 256,
        fault: "23 TooManyTenants",
    },
    Server {
        why: "`~` is the last of the characters of keys (HTTP.md)",
        count: 63,
        keys: &["~"],
        capacity: 4096,
        fault: "",
    },
    Server {
        why: "keys are judged before they are compared",
        count: 0,
        keys: &["k1", "k1", "a b"],
        capacity: 256,
        fault: "35 BadTenants",
    },
    Server {
        why: "keys are compared with all before",
        count: 0,
        keys: &["k1", "k2", "k1"],
        capacity: 256,
        fault: "22 DuplicateTenant",
    },
    Server {
        why: "a blank behind a key is a character of it, and not visible",
        count: 0,
        keys: &["k1", "K1", "k1 "],
        capacity: 256,
        fault: "35 BadTenants",
    },
    Server {
        why: "keys are told by the case of their letters",
        count: 0,
        keys: &["!", "~", "k1", "K1"],
        capacity: 256,
        fault: "",
    },
    Server {
        why: "a blank within a key isn't visible (HTTP.md)",
        count: 2,
        keys: &["a b"],
        capacity: 256,
        fault: "35 BadTenants",
    },
    Server {
        why: "a key is compared with the first of all, too",
        count: 1,
        keys: &["k0"],
        capacity: 1,
        fault: "22 DuplicateTenant",
    },
    Server {
        why: "a key of 64 characters is the longest (HTTP.md)",
        count: 0,
        keys: &["«64*k»"],
        capacity: 256,
        fault: "",
    },
    Server {
        why: "a key of 65 characters is too long (HTTP.md)",
        count: 0,
        keys: &["«65*k»"],
        capacity: 256,
        fault: "35 BadTenants",
    },
    Server {
        why: "a key has one character at least (HTTP.md)",
        count: 0,
        keys: &[""],
        capacity: 256,
        fault: "35 BadTenants",
    },
    Server {
        why: "a key's characters are of ASCII (HTTP.md)",
        count: 0,
        keys: &["ä"],
        capacity: 256,
        fault: "35 BadTenants",
    },
    Server {
        why: "DEL is no visible character (HTTP.md)",
        count: 0,
        keys: &["\u{7f}"],
        capacity: 256,
        fault: "35 BadTenants",
    },
];

fn expect_server(rt: &impl Abort, alloc: Global, row: &Server) {
    let found = refusal(alloc, row.count, row.keys, row.capacity);
    expect_like(rt, alloc, found, row.fault, row.why);
    let found = hub_refusal(alloc, row.count, row.keys, row.capacity);
    expect_like(rt, alloc, found, row.fault, row.why);
}

#[test]
fn servers_are_refused_in_order(rt: HostRuntime) {
    for row in SERVERS {
        expect_server(&rt, rt.alloc(), row);
    }
}
