//! What each exit status of the program says of the files. A law is a call that does nothing: its contract is the statement.
ghost use Rattle.std.specs.Prelude.{ℕ};
ghost use Rattle.inrc2pb_frame.specs.Exits.{printer_state};
ghost use Rattle.inrc2pb_frame.specs.Given.{Given};
ghost use Rattle.byte_ports.specs.Openers.{opener_at};
ghost use Rattle.rota_pb.specs.RunPorts.{writer_of};
ghost use Rattle.inrc2pb_bound_program.specs.BoundEnds.{BoundFollowsFromFiles};

use byte_ports::{Opens, Target};
use inrc2pb_frame::Printer;

/// A run of `inrc2pb-bound` for a job writes the answer that follows from the files at the job's paths, reports their first fault,
/// or does not write the whole text because memory, a read or a write fails.
pub fn bound_follows_from_files<O: Opens, W: Target, H: Printer, E: Printer, X, Z>()
    ensures { (words : Given X Z) (files_old files_new : O) (output_old output_new : W) (help_old help_new : H)
        (errors_old errors_new : E) (status : ℕ) →
        BoundFollowsFromFiles (opener_at O.Opens O.File.Source files_old files_new) words (writer_of W.Target output_old output_new)
        (printer_state H.Printer help_old help_new) (printer_state E.Printer errors_old errors_new) status }
{}
