//! The printers of a program's last message.
ghost use Rattle.std.specs.Prelude.{◌≡◌, ◌||◌, Bool, None, IfErr, IfOk, false, is_err};
ghost use Rattle.inrc2pb_frame.specs.Messages.{Messages, message_of, with_message};

use crate::stop::StopText;
use std::io;

/// Prints why a program ended, and remembers whether a text could not be printed.
pub trait Printer {
    // whether a text could not be printed
    ghost has_failed: { Self → Bool };

    // the printed messages, one after the other, if they are known
    ghost messages: { Self → Messages };

    /// Prints the message.
    fn print(&mut self, text: &StopText) -> io::Result<()>
        ensures failure { has_failed self.new ≡ (has_failed self.old || is_err result) }
        ensures printed { IfOk result (λ _. messages self.new ≡ with_message (messages self.old) (message_of text.now)) }
        ensures unprinted { IfErr result (λ _. messages self.new ≡ messages self.old) };
}

/// Texts on standard output.
#[derive(Drop)]
pub struct StdoutPrinter<'a, R> {
    rt: &'a R,
    failed: bool,
}

impl<'a, R: Print> StdoutPrinter<'a, R> {
    /// A printer on standard output. It has not failed.
    pub fn new(rt: &'a R) -> StdoutPrinter<'a, R>
        ensures { ⟦<StdoutPrinter<'a, R> as Printer>⟧.has_failed result ≡ false }
    {
        StdoutPrinter { rt, failed: false }
    }
}

impl<R: Print> Printer for StdoutPrinter<'_, R> {
    ghost has_failed = { λ output. output.failed };

    // Nobody knows which messages a real output has.
    ghost messages = { λ _. None };

    fn print(&mut self, text: &StopText) -> io::Result<()> {
        let printed = self.rt.print(text);
        self.failed = self.failed || printed.is_err();
        printed
    }
}

/// Texts on the standard error.
#[derive(Drop)]
pub struct StderrPrinter<'a, R> {
    rt: &'a R,
    failed: bool,
}

impl<'a, R: Eprint> StderrPrinter<'a, R> {
    /// A printer on the standard error. It has not failed.
    pub fn new(rt: &'a R) -> StderrPrinter<'a, R>
        ensures { ⟦<StderrPrinter<'a, R> as Printer>⟧.has_failed result ≡ false }
    {
        StderrPrinter { rt, failed: false }
    }
}

impl<R: Eprint> Printer for StderrPrinter<'_, R> {
    ghost has_failed = { λ errors. errors.failed };

    // Nobody knows which messages a real output has.
    ghost messages = { λ _. None };

    fn print(&mut self, text: &StopText) -> io::Result<()> {
        let printed = self.rt.eprint(text);
        self.failed = self.failed || printed.is_err();
        printed
    }
}
