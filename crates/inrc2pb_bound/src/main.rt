//! How good rosters of one or more weeks can be: a lower bound of the penalty of all rosters that keep the hard rules, the
//! proof that rosters are optimal, or that none exist.
#![tactic(auto)]

use byte_ports::ToWrite;
use inrc2pb_bound_program::program;
use inrc2pb_frame::{HostFiles, StderrPrinter, StdoutPrinter};
use std::process::ExitCode;
use std::{env, io};

fn main(rt: HostRuntime) -> ExitCode {
    program(
        rt.alloc(),
        env::args(&rt),
        &mut HostFiles::new(&rt),
        &mut ToWrite::new(io::writer(&rt)),
        &mut StdoutPrinter::new(&rt),
        &mut StderrPrinter::new(&rt),
    )
}
