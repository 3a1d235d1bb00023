//! Scans of schemas.

ghost use Rattle.std.specs.Prelude.{◌≡◌, ◌≤◌, IfOk, map};
ghost use Rattle.schema_scan.specs.CompiledDocuments.{compiled_view};
ghost use Rattle.file_checks.specs.FileSources.{file_documents};
ghost use Rattle.file_forms.specs.Scans.{verdict_among, verdict_where};

use crate::console::Console;
use crate::folders::Folders;
use crate::gathering::Gathered;
use crate::schema_file::{SchemaFile, has_resource_in, with_referred_definitions};
use crate::trouble::Trouble;
use crate::walking::JSON;
use command_line::Scanning;
use file_checks::{FileDocuments, Tally, Verdict};
use plain_reports::shown_text;
use schema_hints::{Anchor, Hint, look_over};
use schema_scan::canonical;
use std::alloc::{AllocError, Global};
use std::collections::BTreeSet;
use text_places::{Position, position_of_location};

/// What schemas are scanned among, and how each is told.
#[derive(Clone, Copy)]
struct Telling<'a> {
    documents: &'a FileDocuments,
    // The URIs of resources into whose `definitions` some reference leads.
    referred: &'a BTreeSet<String>,
    quiet: bool,
}

/// Scans schemas, and gives the status: 0, or 1 where a reference leads nowhere, or 2 where a file is refused.
pub fn scan<F: Folders, C: Console>(
    alloc: Global,
    files: &F,
    console: &mut C,
    scanning: &Scanning<'_>,
) -> u8
    ensures { result ≤ 2 }
{
    match scanned(alloc, files, console, scanning) {
        Ok(tally) => tally.status(),
        Err(trouble) => {
            console.tell(&trouble);
            2
        }
    }
}

fn scanned<F: Folders, C: Console>(
    alloc: Global,
    files: &F,
    console: &mut C,
    scanning: &Scanning<'_>,
) -> Result<Tally, Trouble> {
    let mut gathered = Gathered::new(alloc, files, scanning.documents.library)?;
    let mut tally = Tally::new();
    let (schemas, others) = (&scanning.schemas, &scanning.documents.paths);
    add_all(alloc, files, console, &mut gathered, &mut tally, schemas)?;
    let count = gathered.files.len();
    add_all(alloc, files, console, &mut gathered, &mut tally, others)?;
    let referred = with_referred_definitions(alloc, gathered.files.as_slice())?;
    let telling = Telling {
        documents: &gathered.documents,
        referred: &referred,
        quiet: scanning.quiet,
    };
    for schema in gathered.files.iter().take(count) {
        let verdict = tell_schema(alloc, files, console, &telling, schema)?;
        tally.add(verdict);
    }
    let line = sum_of(alloc, &tally)?;
    console.note(line.as_str());
    Ok(tally)
}

fn sum_of(alloc: Global, tally: &Tally) -> Result<String, AllocError> {
    let Tally {
        valid,
        invalid,
        refused,
    } = *tally;
    format!(in alloc;
        "{valid} in order, {invalid} with references that lead nowhere, {refused} refused\n"
    )
}

/// Adds the schemas of these files and folders, and tells of each that is refused.
fn add_all<F: Folders, C: Console>(
    alloc: Global,
    files: &F,
    console: &mut C,
    gathered: &mut Gathered,
    tally: &mut Tally,
    paths: &[&str],
) -> Result<(), Trouble> {
    for path in paths {
        add_schemas(alloc, files, console, gathered, tally, path)?;
    }
    Ok(())
}

/// Adds the schemas of the file or the folder, and tells of each that is refused.
fn add_schemas<F: Folders, C: Console>(
    alloc: Global,
    files: &F,
    console: &mut C,
    gathered: &mut Gathered,
    tally: &mut Tally,
    path: &str,
) -> Result<(), Trouble> {
    let found = files.files_of(alloc, path, JSON)?;
    for folder in &found.unread {
        console.tell(&Trouble::cannot_read(alloc, folder.as_str()));
        tally.add(Verdict::Refused);
    }
    for file in &found.files {
        if let Err(trouble) = gathered.add(alloc, files, file.as_str()) {
            console.tell(&trouble);
            tally.add(Verdict::Refused);
        }
    }
    Ok(())
}

/// Tells what a schema holds, what of it leads nowhere, and warnings.
fn tell_schema<F: Folders, C: Console>(
    alloc: Global,
    files: &F,
    console: &mut C,
    telling: &Telling<'_>,
    schema: &SchemaFile,
) -> Result<Verdict, Trouble>
    ensures { IfOk result (λ verdict. verdict ≡ verdict_among
        (file_documents telling.now.documents.now) (compiled_view schema.now.document.value)) }
{
    let dangling = telling
        .documents
        .dangling_references(alloc, &schema.document)?;
    let dangles = dangling_text(alloc, schema.path.as_str(), &dangling)?;
    if telling.quiet {
        console.print(dangles.as_str());
    } else {
        let is_referred = has_resource_in(&schema.document, telling.referred);
        let found = look_over(alloc, schema.document.document(), is_referred)?;
        let text = holdings(alloc, schema, &found.anchors)?;
        console.print(text.as_str());
        console.print(dangles.as_str());
        warn(alloc, files, console, schema.path.as_str(), &found.hints)?;
    }
    console.step(None);
    Ok(verdict_of(&dangling))
}

// Whether references lead nowhere.
fn verdict_of(dangling: &[&str]) -> Verdict
    ensures { result ≡ verdict_where (map (λ r. r.now) dangling.now) }
{
    if dangling.is_empty() {
        Verdict::Valid
    } else {
        Verdict::Invalid
    }
}

/// Prints the warnings of a schema.
fn warn<F: Folders, C: Console>(
    alloc: Global,
    files: &F,
    console: &mut C,
    path: &str,
    hints: &[Hint],
) -> Result<(), Trouble> {
    let text = files.read(alloc, path)?;
    for hint in hints {
        let line = warning(alloc, path, text.as_slice(), hint)?;
        console.print(line.as_str());
    }
    Ok(())
}

/// The file's path, and below it its URI, its other resources and its anchors.
fn holdings(alloc: Global, schema: &SchemaFile, anchors: &[Anchor]) -> Result<String, Trouble> {
    let uri = canonical(&schema.document);
    let mut text = shown_line(alloc, schema.path.as_str())?;
    push_shown_line(alloc, &mut text, format!(in alloc; "  uri {uri}")?.as_str())?;
    for resource in schema.document.resource_uris() {
        if resource.as_str() != uri {
            let line = format!(in alloc; "  resource {resource}")?;
            push_shown_line(alloc, &mut text, line.as_str())?;
        }
    }
    push_anchors(alloc, &mut text, anchors)?;
    Ok(text)
}

fn push_anchors(alloc: Global, text: &mut String, anchors: &[Anchor]) -> Result<(), AllocError> {
    for anchor in anchors {
        let line = anchor_line(alloc, anchor)?;
        push_shown_line(alloc, text, line.as_str())?;
    }
    Ok(())
}

fn anchor_line(alloc: Global, anchor: &Anchor) -> Result<String, AllocError> {
    let Anchor {
        location,
        name,
        is_dynamic,
    } = anchor;
    let kind = if *is_dynamic {
        "dynamic anchor"
    } else {
        "anchor"
    };
    format!(in alloc; "  {kind} {name} at {location}")
}

/// A line for each reference that leads nowhere, each once.
fn dangling_text(alloc: Global, path: &str, dangling: &[&str]) -> Result<String, Trouble> {
    let mut text = String::new(alloc);
    let mut before = "";
    for reference in dangling {
        if *reference != before {
            let line = format!(in alloc; "{path}: no schema is at {reference}")?;
            push_shown_line(alloc, &mut text, line.as_str())?;
        }
        before = reference;
    }
    Ok(text)
}

/// `PATH:LINE:COLUMN: warning: ..`.
fn warning(alloc: Global, path: &str, text: &[u8], hint: &Hint) -> Result<String, Trouble> {
    let line = match position_of_location(alloc, text, hint.location.as_str())? {
        Some(Position { line, column }) => {
            format!(in alloc; "{path}:{line}:{column}: warning: {hint}")?
        }
        None => format!(in alloc; "{path}: warning: {hint}")?,
    };
    Ok(shown_line(alloc, line.as_str())?)
}

/// The text as it is shown, as a line.
fn shown_line(alloc: Global, text: &str) -> Result<String, AllocError> {
    let mut line = shown_text(alloc, text)?;
    line.push_str("\n")?;
    Ok(line)
}

fn push_shown_line(alloc: Global, out: &mut String, text: &str) -> Result<(), AllocError> {
    out.push_str(shown_line(alloc, text)?.as_str())
}
