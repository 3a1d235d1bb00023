//! A check whose instance is a file, or a folder of them.
ghost use Rattle.std.specs.Prelude.{◌≡◌, [], None, IfOk, IfSome};
ghost use Rattle.command_line.specs.Calls.{Asked, check, check_many, checks_view};
ghost use Rattle.service_forms.specs.Endings.{EndsReading, ReadsInOrder, address_of, files_in, names_of};
ghost use Rattle.schemareg.specs.Answers.{EndsBy, check_of_texts};
ghost use Rattle.schemareg.specs.Folders.{CarriedOut, folder_check, is_folder_in};
ghost use Rattle.schemareg.specs.Forms.{EndsFormIfRoom, OnForm};

use crate::checking;
use crate::forms::Forms;
use crate::terminal::Terminal;
use command_line::{Checks, Documents, Format};
use faults::Fault;
use service_forms::{Stop, Texts};
use serving::ByteWriter;
use std::alloc::{AllocError, Global};
use std::io::{Read, Write};
use std::time::Clock;

/// What a check names: the URI that the schema stands under, the schema's file, and a file or a folder.
#[derive(Clone, Copy, Debug)]
pub struct Named<'a> {
    pub uri: &'a str,
    pub schema: &'a str,
    pub instance: &'a str,
}

/// Answers the check of the file; or of each file of the folder, as with other words. Where a text is refused, `place` tells
/// where, if that is known.
pub fn check<'a, F: Texts + Forms, C: Clock, I: Read, O: Write + ByteWriter, E: Write>(
    alloc: Global,
    files: &F,
    named: Named<'a>,
    input: &mut I,
    console: &mut Terminal<'_, C, O, E>,
    place: &mut Option<String>,
) -> Result<u8, Stop<'a>>
    ensures ends { IfSome (F.text_at files.now named.entry.schema.now) (λ s.
        IfSome (F.text_at files.now named.entry.instance.now) (λ i.
        EndsBy (check_of_texts named.entry.uri.now s i) (O.writes console.old.output.stream) result
        (O.writes console.new.output.stream))) }
    ensures reading { CarriedOut (is_folder_in (F.text_at files.now) (F.is_unreadable files.now)
        (F.folder_at files.now))
        (check named.entry.uri.now named.entry.schema.now named.entry.instance.now)
        (λ call. EndsReading (names_of call) (address_of call) result) }
    ensures order { CarriedOut (is_folder_in (F.text_at files.now) (F.is_unreadable files.now)
        (F.folder_at files.now))
        (check named.entry.uri.now named.entry.schema.now named.entry.instance.now)
        (λ call. ReadsInOrder (F.is_unreadable files.now) (files_in call) result
        × OnForm (F.disk files.now) (I.remaining input.old) (I.remaining input.new) call (λ Ends.
        EndsFormIfRoom Ends (O.writes console.old.output.stream) result
        (O.writes console.new.output.stream))) }
{
    if files.is_folder(named.instance) {
        check_folder(alloc, files, named, input, console)
    } else {
        let Named {
            uri,
            schema,
            instance,
        } = named;
        let out = &mut console.output.stream;
        checking::check_files(alloc, files, uri, schema, instance, out, place)
    }
}

/// Checks each file of the folder.
fn check_folder<'a, F: Forms, C: Clock, I: Read, O: ByteWriter, E: Write>(
    alloc: Global,
    files: &F,
    named: Named<'a>,
    input: &mut I,
    console: &mut Terminal<'_, C, O, E>,
) -> Result<u8, Stop<'a>>
    ensures reading { EndsReading [] None result }
    ensures form { OnForm (F.disk files.now) (I.remaining input.old) (I.remaining input.new)
        (folder_check named.entry.uri.now named.entry.schema.now named.entry.instance.now) (λ Ends.
        EndsFormIfRoom Ends (O.writes console.old.output.stream) result
        (O.writes console.new.output.stream)) }
{
    match folder_checks(alloc, named) {
        Ok(checks) => files.check_many(&checks, input, console),
        Err(_) => Err(Stop::Refused(Fault::NoRoom)),
    }
}

/// The checks of the folder's files, as they are where no other word is given.
fn folder_checks(alloc: Global, named: Named<'_>) -> Result<Checks<'_>, AllocError>
    ensures { IfOk result (λ checks. check_many (checks_view checks)
        ≡ folder_check named.entry.uri.now named.entry.schema.now named.entry.instance.now) }
{
    let mut instances = Vec::new(alloc);
    instances.push(named.instance)?;
    Ok(Checks {
        documents: Documents {
            library: None,
            paths: Vec::new(alloc),
        },
        uri: Some(named.uri),
        schema: named.schema,
        instances,
        lines: false,
        format: Format::Text,
        quiet: false,
    })
}
