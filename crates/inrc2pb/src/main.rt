//! One week of an INRC-II nurse roster as a pseudo-Boolean model, and back.
//!
//! `encode` writes the model of a week, `decode` reads a solver's answer to it, and `extend` turns a roster
//! into such an answer. `make tour` runs all three with a solver, and shows each command before it runs.
#![tactic(auto)]

use byte_ports::{FromRead, ToWrite};
use inrc2pb_frame::{FileOnFirstWrite, HostFiles, StandardInput, StderrPrinter, StdoutPrinter};
use inrc2pb_program::program;
use std::process::ExitCode;
use std::{env, io};

fn main(rt: HostRuntime) -> ExitCode {
    program(
        rt.alloc(),
        env::args(&rt),
        &mut HostFiles::new(&rt),
        &mut FromRead::new(StandardInput::new(&rt)),
        &mut FileOnFirstWrite::new(&rt),
        &mut ToWrite::new(io::writer(&rt)),
        &mut StdoutPrinter::new(&rt),
        &mut StderrPrinter::new(&rt),
    )
}
