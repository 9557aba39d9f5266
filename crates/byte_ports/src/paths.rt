//! Files that are opened by their paths, and outputs that have a path.
ghost use Rattle.std.specs.Prelude.{Option, None, IfErr, IfOk};
ghost use Rattle.byte_ports.specs.Paths.{AsksFor, PathLog, IsNew, MayRefuse, Path, FileAt};

use crate::ports::{PortFault, Source};
use crate::std_ports::ToWrite;

/// Opens files by their paths.
pub trait Opens {
    type File: Source + Drop;

    // the contents of a path, if they are known
    ghost at: { Self → Path → FileAt };

    // the paths that were asked for, one after the other, if they are known
    ghost log: { Self → PathLog };

    /// Opens the file at the path. Nothing has been read from it.
    fn open(&mut self, path: &str) -> Result<Self::File, PortFault>
        ensures opened { IfOk result (IsNew Self.File.Source (at self.old path.now)) }
        ensures refused { IfErr result (λ _. MayRefuse (at self.old path.now)) }
        ensures asked { AsksFor path.now (at self.old) (at self.new) (log self.old) (log self.new) };
}

/// An output that knows its place: the path of its file, or `None` if it is a stream.
pub trait HasPath {
    ghost path: { Self → Option Path };
}

/// A stream, such as standard output, has no path.
impl<W> HasPath for ToWrite<W> {
    ghost path = { λ _. None };
}
