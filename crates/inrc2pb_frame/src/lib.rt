//! The shared parts of the programs: the words of the process, the arguments of a command and their values, the ports of the
//! host, and the end of a program, with its message and its exit code.
#![tactic(auto)]

mod arguments;
mod fault_line;
mod files;
mod options;
mod output_file;
mod printers;
mod process_words;
mod stop;

pub use arguments::{VERSION, file_option, flag, required_file};
pub use files::{FileOnFirstWrite, HostFiles, StandardInput};
pub use options::{has_flag, optional_path, required_path};
pub use output_file::OutputFile;
pub use printers::{Printer, StderrPrinter, StdoutPrinter};
pub use process_words::{borrowed, kept};
pub use stop::{Stop, StopText, exit_code};
