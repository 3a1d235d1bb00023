//! Bundles.

ghost use Rattle.std.specs.Prelude.{◌≡◌, ◌≢◌, Err, IfErr, IfOk, OnErr, OnOk, option_map, string_bytes};
ghost use Rattle.command_line.specs.Calls.{bundling_view};
ghost use Rattle.definitions.specs.Bundles.{bundle};
ghost use Rattle.faults.specs.View.{fault_view};
ghost use Rattle.file_forms.specs.Bundles.{EndsBundle, EndsBundleOf, IsBundleOf, IsGivenBundle, IsUngiven};
ghost use Rattle.file_forms.specs.Checks.{state_with};
ghost use Rattle.linker.specs.LinkedDocuments.{linked_documents, linked_uri};

use crate::console::Console;
use crate::folders::Folders;
use crate::roots::{Given, linked_schema};
use crate::trouble::Trouble;
use command_line::Bundling;
use file_checks::Fault;
use json_doc::write;
use linker::Linked;
use std::alloc::Global;

/// Writes a bundle of just the documents that are given to standard output or to a file, and gives the status: 0, or 2 where
/// there is none, which is told, and nothing is written.
pub fn bundle<F: Folders, C: Console>(
    alloc: Global,
    files: &F,
    console: &mut C,
    bundling: &Bundling<'_>,
) -> u8
    ensures { EndsBundle (F.holds files.now) (F.lists files.now) (F.runs_in files.now)
        (F.has_written files.now) (bundling_view bundling.now)
        (state_with (C.printed console.old) (C.told console.old) 0)
        (state_with (C.printed console.new) (C.told console.new) result) }
{
    let given = Given {
        documents: &bundling.documents,
        schema: bundling.schema,
        uri: bundling.uri,
    };
    match linked_schema(alloc, files, console, &given) {
        Ok(Some(linked)) => bundle_linked(alloc, files, console, bundling, &linked),
        Ok(None) => 2,
        Err(trouble) => {
            console.tell(&trouble);
            2
        }
    }
}

// Writes the bundle of the linked schema, and gives the status.
fn bundle_linked<F: Folders, C: Console>(
    alloc: Global,
    files: &F,
    console: &mut C,
    bundling: &Bundling<'_>,
    linked: &Linked,
) -> u8
    ensures { EndsBundleOf (F.has_written files.now) (bundling_view bundling.now) linked.now
        (state_with (C.printed console.old) (C.told console.old) 0)
        (state_with (C.printed console.new) (C.told console.new) result) }
{
    match give(alloc, files, console, bundling, linked) {
        Ok(()) => 0,
        Err(trouble) => {
            console.tell(&trouble);
            2
        }
    }
}

// Gives the bundle to standard output or to the file.
fn give<F: Folders, C: Console>(
    alloc: Global,
    files: &F,
    console: &mut C,
    bundling: &Bundling<'_>,
    linked: &Linked,
) -> Result<(), Trouble>
    ensures ok { OnOk result (IsGivenBundle (F.has_written files.now)
        (option_map (λ p. p.now) bundling.now.out) linked.now (C.printed console.old)
        (C.printed console.new)) }
    ensures err { IfErr result
        (IsUngiven linked.now bundling.now.schema.now (option_map (λ p. p.now) bundling.now.out)) }
    ensures unprinted { OnErr result (C.printed console.new ≡ C.printed console.old) }
    ensures untold { C.told console.new ≡ C.told console.old }
{
    let text = match bundle_of(alloc, linked) {
        Ok(text) => text,
        Err(fault) => return Err(Trouble::refused(alloc, bundling.schema, None, &[], fault)),
    };
    match bundling.out {
        None => {
            console.print(text.as_str());
            Ok(())
        }
        Some(path) => files.write(alloc, path, text.as_str()),
    }
}

// The text of the bundle of what was linked, as a line.
fn bundle_of(alloc: Global, linked: &Linked) -> Result<String, Fault>
    ensures ok { IfOk result (λ s. IsBundleOf linked.now (string_bytes s)) }
    ensures err { IfErr result (λ f. f ≢ Fault.NoRoom
        → bundle (linked_documents linked.now) (linked_uri linked.now) ≡ Err (fault_view f)) }
{
    let bundle = bundler::bundle(alloc, linked)?;
    let mut text = write(alloc, &bundle)?;
    text.push_str("\n")?;
    Ok(text)
}
