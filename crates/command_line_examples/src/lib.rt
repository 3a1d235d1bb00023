//! Words of the command line, the calls that they spell and the texts that they are answered by: tests alone, for the crate
//! `command_line`.
#![tactic(auto)]

#[cfg(test)]
mod calls;
#[cfg(test)]
mod printed_texts;
