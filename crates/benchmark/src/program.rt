//! The program: its words, its input, and the number that it prints.

use crate::asking::repeat_calls;
use crate::failure::Failure;
use crate::feeding::feed_pieces;
use crate::repeating::{
    linked, repeat_check, repeat_evaluate, repeat_link, repeat_read, repeat_syntax, repeat_validate,
};
use crate::workload::{Workload, named};
use checks::DEFAULT_URI;
use faults::Fault;
use json_doc::{Doc, read, write};
use std::alloc::Global;
use std::env;
use std::io::Read;
use std::rt::Env;
use uri_ref::base_form;

/// Runs the program, and gives its status: 0, or 2 where there is no number to print.
pub fn run<R: Env + Input + Print + Eprint + AllocGlobal>(rt: &R) -> u8 {
    match print(rt) {
        Ok(()) => 0,
        Err(failure) => {
            let _ = rt.eprint(&failure);
            2
        }
    }
}

fn print<R: Env + Input + Print + AllocGlobal>(rt: &R) -> Result<(), Failure> {
    let words = words(rt)?;
    let (workload, times) = order(words.as_slice())?;
    let text = input(rt)?;
    let count = count(rt.alloc(), workload, text.as_slice(), times)?;
    println!(rt; "{count}")?;
    Ok(())
}

fn words<R: Env + AllocGlobal>(rt: &R) -> Result<Vec<String>, Failure> {
    let words = env::args(rt)?;
    Ok(words.collect(rt.alloc()).map_err(Fault::from)?)
}

fn input<R: Input + AllocGlobal>(rt: &R) -> Result<Vec<u8>, Failure> {
    let mut bytes = Vec::new(rt.alloc());
    rt.reader().read_to_end(&mut bytes)?;
    Ok(bytes)
}

/// The workload that the words name, after the program's own name, and the number with it: how often it is to be done, or the
/// size of the pieces that are fed.
pub fn order(words: &[String]) -> Result<(Workload, u32), Failure> {
    match words {
        [_, workload, times] => match (named(workload.as_str()), times.parse::<u32>()) {
            (Some(workload), Ok(times)) => Ok((workload, times)),
            _ => Err(Failure::Words),
        },
        _ => Err(Failure::Words),
    }
}

/// Does the workload on the text. The answer is how often it was done, or how often the instance was valid, where it is judged;
/// how many replies were no refusals; or how many bytes were sent.
pub fn count(alloc: Global, workload: Workload, text: &[u8], number: u32) -> Result<u64, Fault> {
    match workload {
        Workload::Feed if number > 0 => feed_pieces(alloc, text, number as usize),
        Workload::Feed => Ok(0),
        Workload::Check => Ok(repeat_check(alloc, text, number)? as u64),
        _ => count_workload(alloc, workload, &read(alloc, text)?, number),
    }
}

fn count_workload(
    alloc: Global,
    workload: Workload,
    input: &Doc,
    times: u32,
) -> Result<u64, Fault> {
    match workload {
        Workload::Ask => {
            let before = member(input, "before")?;
            repeat_calls(alloc, before, member(input, "repeat")?, times)
        }
        _ => Ok(count_of_check(alloc, workload, input, times)? as u64),
    }
}

fn count_of_check(
    alloc: Global,
    workload: Workload,
    input: &Doc,
    times: u32,
) -> Result<u32, Fault> {
    let schema = member(input, "schema")?;
    let instance = member(input, "instance")?;
    if workload == Workload::Syntax {
        return repeat_syntax(alloc, write(alloc, instance)?.as_str(), times);
    }
    if workload == Workload::Read {
        return repeat_read(alloc, write(alloc, instance)?.as_bytes(), times);
    }
    let base = base_form(alloc, DEFAULT_URI)?;
    if workload == Workload::Compile {
        return repeat_link(alloc, base.as_str(), schema, times);
    }
    let linked = linked(alloc, base.as_str(), schema)?;
    if workload == Workload::Evaluate {
        return repeat_evaluate(alloc, &linked, instance, times);
    }
    repeat_validate(alloc, &linked, instance, times)
}

fn member<'a>(input: &'a Doc, name: &str) -> Result<&'a Doc, Fault> {
    match input.get(name) {
        Some(member) => Ok(member),
        None => Err(Fault::BadInput),
    }
}
