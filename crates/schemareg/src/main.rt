//! The program `schemareg`: reads its input, has it judged by the library, and prints the answer.
#![tactic(auto)]

mod checking;
mod file_system;
mod folders;
mod forms;
mod output;
mod printing;
mod program;
mod progress;
mod reading;
mod terminal;

use crate::file_system::Terminals;
use crate::terminal::Terminal;
use serving::Recorded;
use std::io::{self, IsTerminal};
use std::process::ExitCode;

fn main(rt: HostRuntime) -> ExitCode {
    let (out, errors) = (rt.stdout(), rt.stderr());
    let terminals = Terminals {
        output: out.is_terminal(),
        errors: errors.is_terminal(),
    };
    let out = Recorded::new(io::writer(&out));
    let errors = Recorded::new(io::writer(&errors));
    let mut console = Terminal::new(rt.alloc(), &rt, out, errors, terminals.errors);
    program::run(&rt, &mut console, terminals)
}
