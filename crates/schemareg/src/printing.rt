//! Printing a report, or why there is none.
ghost use Rattle.std.specs.Prelude.{◌≡◌, ◌⊎◌, ◌++◌, ◌∷◌, [], true, false, not, IfOk, IfErr, OnOk, OnErr, string_bytes};
ghost use Rattle.definitions.specs.Bytes.{line_feed};
ghost use Rattle.service_forms.specs.Stops.{Attempts, EndsRequest, EndsUnwritten, Tells, is_error, status_of, text_of, unwritten_text};
ghost use Rattle.schemareg.specs.Answers.{Prints, check_status};

use fault_sentences::Sentence;
use faults::Fault;
use service_forms::{Stop, UNWRITTEN};
use serving::{ByteWriter, write_all};
use std::io::{self, Write};

/// The status of a check: 0 where the instance is valid, and else 1.
fn status(is_valid: bool) -> u8
    ensures { result ≡ check_status is_valid }
{
    if is_valid { 0 } else { 1 }
}

/// The text with a line feed.
fn line(mut text: String) -> Result<String, Fault>
    ensures ok { IfOk result (λ line. string_bytes line ≡ string_bytes text ++ line_feed ∷ []) }
    ensures err { IfErr result (λ fault. fault ≡ Fault.NoRoom) }
{
    text.push_str("\n")?;
    Ok(text)
}

/// Writes the text at once. It is an error only where a write failed or took nothing: then a first part of the text is
/// written.
fn write<'a, O: ByteWriter>(out: &mut O, text: &str) -> Result<(), Stop<'a>>
    ensures printed { Prints (O.writes out.old) text.now result (O.writes out.new) }
    ensures err { IfErr result (λ stop. stop ≡ Stop.CannotWrite) }
{
    match write_all(out, text.as_bytes()) {
        Ok(()) => Ok(()),
        Err(_) => Err(Stop::CannotWrite),
    }
}

/// Prints the text of a report as a line, and gives the status of its check.
pub fn report<'a, O: ByteWriter>(out: &mut O, is_valid: bool, text: String) -> Result<u8, Stop<'a>>
    ensures status { IfOk result (λ status. status ≡ check_status is_valid) }
    ensures printed { Prints (O.writes out.old) (string_bytes text ++ line_feed ∷ []) result
        (O.writes out.new) }
{
    let line = line(text)?;
    write(out, line.as_str())?;
    Ok(status(is_valid))
}

/// Prints why there is no report on the stream that it goes to, and gives the program's status. Nothing is written to the
/// other stream.
fn tell<O: Write, E: Write>(out: &mut O, errors: &mut E, stop: &Stop<'_>) -> io::Result<u8>
    ensures status { IfOk result (λ status. status ≡ status_of stop.now) }
    ensures errors { OnOk result (Tells (is_error stop.now) (text_of stop.now)
        (E.contents errors.old) (E.contents errors.new)) }
    ensures out { OnOk result (Tells (not (is_error stop.now)) (text_of stop.now)
        (O.contents out.old) (O.contents out.new)) }
    ensures kept_errors { is_error stop.now ≡ false → errors.new ≡ errors.old }
    ensures kept_out { is_error stop.now ≡ true → out.new ≡ out.old }
{
    if stop.is_error() {
        errors.write_fmt(stop)?;
    } else {
        out.write_fmt(stop)?;
    }
    Ok(stop.status())
}

/// Prints why there is no report on the stream that it goes to, and gives the program's status, which is 2 where that stream
/// fails. A failure of standard output is told on standard error; one of standard error isn't, since there is nowhere to say so.
pub fn explain<O: Write, E: Write + ByteWriter>(out: &mut O, errors: &mut E, stop: &Stop<'_>) -> u8
    ensures error { is_error stop.now ≡ true → (result ≡ 2) × (out.new ≡ out.old) }
    ensures request { is_error stop.now ≡ false
        → EndsRequest (E.writes errors.old) result (E.writes errors.new) }
    ensures status { (result ≡ status_of stop.now) ⊎ (result ≡ 2) }
{
    let told = tell(out, errors, stop);
    settle(&told, errors, stop)
}

/// The status behind `told`: where the text could not be written, 2.
fn settle<E: ByteWriter>(told: &io::Result<u8>, errors: &mut E, stop: &Stop<'_>) -> u8
    ensures ok { IfOk told.now (λ status. (result ≡ status) × (errors.new ≡ errors.old)) }
    ensures err { OnErr told.now (EndsUnwritten (is_error stop.now) (E.writes errors.old) result
        (E.writes errors.new)) }
{
    match told {
        Ok(status) => *status,
        Err(_) => unwritten(errors, stop),
    }
}

/// The status where a text could not be written, which is told where that was standard output.
fn unwritten<E: ByteWriter>(errors: &mut E, stop: &Stop<'_>) -> u8
    ensures { EndsUnwritten (is_error stop.now) (E.writes errors.old) result
        (E.writes errors.new) }
{
    if !stop.is_error() {
        complain(errors);
    }
    2
}

/// Tells that standard output cannot be written.
fn complain<E: ByteWriter>(errors: &mut E)
    ensures { Attempts (E.writes errors.old) unwritten_text (E.writes errors.new) }
{
    let _ = write_all(errors, UNWRITTEN.as_bytes());
}

/// Tells a person at a terminal what would mend a refusal, and at which place, if it is known.
pub fn sentence<E: Write>(errors: &mut E, stop: &Stop<'_>, place: Option<&str>) {
    if let Stop::Refused(fault) = stop {
        let sentence = Sentence(fault);
        let _ = match place {
            Some(place) => writeln!(errors, "  {place}: {sentence}"),
            None => writeln!(errors, "  {sentence}"),
        };
    }
}
