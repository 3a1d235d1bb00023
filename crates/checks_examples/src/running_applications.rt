//! Where applications stand, and loops by JSON Schema 2020-12 Core, 9.4.1: a schema that is applied again at the same
//! place.

use crate::documents::listed;
use crate::texts::{URI, expect_holds};
use basic_output::Step;
use evaluation_context::{Context, ContextMemory, Start};
use keywords::Keyword;
use linker::{Fault, Linked, link};
use std::alloc::Global;

fn linked(alloc: Global) -> Result<Linked, Fault> {
    let mut source = listed(alloc, &[(URI, "{}")])?;
    link(alloc, &mut source, URI)
}

// Whether the context stands one keyword below the root.
fn is_at_keyword(alloc: Global, context: &mut Context<'_>) -> Result<bool, Fault> {
    context.write_locations()?;
    let location = context.location();
    let is_own = context.resource() == URI && location.path == "/not";
    let is_below = location.onward == "/not" && location.instance_location.is_empty();
    let pointer = context.pointer(alloc)?;
    let is_not = matches!(pointer.first(), Some(Step::Keyword(Keyword::Not)));
    Ok(is_own && is_below && pointer.len() == 1 && is_not)
}

// Whether an object is being applied from when it is entered until it is left, but for while its keyword is.
fn knows_what_is_running(alloc: Global) -> Result<bool, Fault> {
    let linked = linked(alloc)?;
    let memory = ContextMemory::new(alloc);
    let start = Start::of(alloc, linked.root(alloc), memory)?;
    let mut context = Context::new(alloc, &linked, start);
    let before = context.is_running();
    context.enter_object()?;
    let within = context.is_running() && context.scope().len() == 1;
    context.enter_keyword(Keyword::Not)?;
    let in_keyword = context.is_running();
    let is_placed = is_at_keyword(alloc, &mut context)?;
    context.leave_keyword();
    let behind_keyword = context.is_running();
    context.leave_object();
    Ok(!before && within && !in_keyword && is_placed && behind_keyword && !context.is_running())
}

#[test]
fn knows_what_is_being_applied_and_where(rt: HostRuntime) {
    expect_holds(
        &rt,
        knows_what_is_running(rt.alloc()),
        "an object is being applied but for while its keyword is",
    );
}
