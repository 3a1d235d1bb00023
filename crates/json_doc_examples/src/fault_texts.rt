//! What faults print.

use crate::expectations::expect_told;
use json_doc::Fault;
use std::alloc::Global;

fn printed(alloc: Global) -> Result<String, Fault> {
    let clash = Fault::BundleClash(String::from_str(alloc, "https://ex.org/b")?);
    Ok(format!(in alloc; "{clash} {:?}, {}", clash.status(), Fault::NoRoom)?)
}

#[test]
fn prints_number_name_and_text(rt: HostRuntime) {
    let wanted = "19 BundleClash https://ex.org/b Some(409), 30 NoRoom";
    expect_told(&rt, rt.alloc(), printed(rt.alloc()), wanted, "two faults");
    assert!(rt; Fault::ReadFailed.status().is_none());
}
