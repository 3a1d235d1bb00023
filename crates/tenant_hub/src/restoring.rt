//! A document is put back.

ghost use Rattle.std.specs.Prelude.{◌≡◌, ◌≢◌, Ok, IfOk, IfErr, string_bytes};
ghost use Rattle.definitions.specs.Patterns.{regular_search};
ghost use Rattle.faults.specs.View.{fault_view};
ghost use Rattle.json_doc.specs.Docs.{value};
ghost use Rattle.requests.specs.Views.{reply_view};
ghost use Rattle.tenant_documents.specs.Registries.{registry_view};
ghost use Rattle.tenant_hub.specs.PutBack.{IsPutBack, restored_value};

use crate::answering::lacks_room;
use crate::array_lengths::has_short_arrays;
use crate::keyed_registry::KeyedRegistry;
use crate::workspace::Workspace;
use json_doc::{Doc, Scratch, read_with};
use requests::{Fault, Reply};
use std::alloc::Global;
use tenant_documents::Registry;

impl KeyedRegistry {
    // Puts a document back into the tenant's registry.
    pub(crate) fn restore(
        &mut self,
        alloc: Global,
        workspace: &mut Workspace,
        base: &str,
        text: &[u8],
    ) -> Reply
        ensures key { string_bytes self.new.key ≡ string_bytes self.old.key }
        ensures restored { IsPutBack (registry_view self.old.registry) base.now text.now
            (reply_view result) (registry_view self.new.registry) }
    {
        self.links.clear();
        restore_into(&mut self.registry, alloc, workspace, base, text)
    }
}

// Where memory runs out, what is kept for speed alone is given back, and the document is put back once more.
fn restore_into(
    registry: &mut Registry,
    alloc: Global,
    workspace: &mut Workspace,
    base: &str,
    text: &[u8],
) -> Reply
    ensures { IsPutBack (registry_view registry.old) base.now text.now
        (reply_view result) (registry_view registry.new) }
{
    let reply = restore_once(registry, alloc, workspace, base, text);
    if lacks_room(&reply) {
        workspace.clear(alloc);
        restore_once(registry, alloc, workspace, base, text)
    } else {
        reply
    }
}

fn restore_once(
    registry: &mut Registry,
    alloc: Global,
    workspace: &mut Workspace,
    base: &str,
    text: &[u8],
) -> Reply
    ensures { IsPutBack (registry_view registry.old) base.now text.now
        (reply_view result) (registry_view registry.new) }
{
    match read_restored(alloc, &mut workspace.scratch, text) {
        Ok(document) => registry.restore(alloc, &mut workspace.cache, base, &document),
        Err(fault) => Reply::Refused(fault),
    }
}

// Reads a text that may be longer than the body of a request. `TooLarge` is for an array with more elements than one in a
// body may have.
fn read_restored(alloc: Global, scratch: &mut Scratch, text: &[u8]) -> Result<Doc, Fault>
    ensures ok { IfOk result (λ d. restored_value text.now ≡ Ok (value d)) }
    ensures err { IfErr result (λ f. f ≢ Fault.NoRoom
        → restored_value text.now ≡ Err (fault_view f)) }
{
    let document = read_with(alloc, scratch, text)?;
    if has_short_arrays(&document) {
        Ok(document)
    } else {
        Err(Fault::TooLarge)
    }
}
