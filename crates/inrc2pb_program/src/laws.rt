//! What each exit status of the program says of the files. A law is a call that does nothing: its contract is the statement.
ghost use Rattle.std.specs.Prelude.{ℕ};
ghost use Rattle.inrc2pb_frame.specs.Exits.{printer_state};
ghost use Rattle.inrc2pb_frame.specs.Given.{Given};
ghost use Rattle.inrc2pb_frame.specs.Placing.{file_of};
ghost use Rattle.byte_ports.specs.Openers.{opener_at};
ghost use Rattle.rota_pb.specs.RunPorts.{reader_of, writer_of};
ghost use Rattle.inrc2pb_program.specs.CommandEnds.{CommandFollowsFromFiles};

use byte_ports::{Opens, Source, Target};
use inrc2pb_frame::{OutputFile, Printer};

/// A run of `encode`, `decode` or `extend` for a job writes what follows from the files at the job's paths, reports their first fault,
/// or does not write the whole of it because memory, a read or a write fails.
pub fn commands_follow_from_files<
    O: Opens,
    A: Source,
    F: OutputFile,
    W: Target,
    H: Printer,
    E: Printer,
    X,
    Z,
>()
    ensures { (words : Given X Z) (files_old files_new : O) (input_old input_new : A) (file_old file_new : F)
        (output_old output_new : W) (help_old help_new : H) (errors_old errors_new : E) (status : ℕ) →
        CommandFollowsFromFiles (opener_at O.Opens O.File.Source files_old files_new)
        (file_of F.Target F.path file_old file_new) words (reader_of A.Source input_old input_new)
        (writer_of W.Target output_old output_new)
        (printer_state H.Printer help_old help_new) (printer_state E.Printer errors_old errors_new) status }
{}
