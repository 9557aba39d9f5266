//! The file that a job writes.
ghost use Rattle.std.specs.Prelude.{◌≡◌, IfErr, IfOk, None, option_map};
ghost use Rattle.inrc2pb_frame.specs.Placing.{IsPlaced, file_ghosts};

use byte_ports::{HasPath, Target};
use std::alloc::AllocError;

/// The file that a job writes. Its path is known only after the words have been read.
pub trait OutputFile: Target + HasPath {
    /// Gives the file its path, once: the first write creates it there. Without a path a write that is not empty
    /// fails. The call itself writes nothing, and fails only if memory runs out: then the file is as before.
    fn place(&mut self, path: Option<&str>) -> Result<(), AllocError>
        requires { Self.path self.old ≡ None }
        ensures placed { IfOk result (λ _.
            IsPlaced (file_ghosts Self.Target Self.path) self.old (option_map (λ p. p.now) path.entry) self.new) }
        ensures unplaced { IfErr result (λ _. self.new ≡ self.old) };
}
