//! The job, performed over any files and any output.
ghost use Rattle.byte_ports.specs.Openers.{opener_at};
ghost use Rattle.rota_pb.specs.RunPorts.{writer_of};
ghost use Rattle.rota_bound_run.specs.PeriodFiles.{AreFiles};
ghost use Rattle.inrc2pb_bound_program.specs.BoundPrograms.{BoundOutcome};

use crate::job::BoundJob;
use crate::open_files::open_period;
use byte_ports::{Opens, Target};
use rota_bound_run::run_bound;
use rota_pb::PeriodFault;
use std::alloc::Global;

/// Performs the job. It opens the files that it reads among `files`, and writes the answer to `output`.
///
/// # Errors
/// `Read` if a file does not open, or `Memory`: then nothing is written. Otherwise the errors of `run_bound`.
pub fn perform<O: Opens, W: Target>(
    alloc: Global,
    job: &BoundJob,
    files: &mut O,
    output: &mut W,
) -> Result<(), PeriodFault>
    requires { AreFiles job.now.paths }
    ensures { BoundOutcome (opener_at O.Opens O.File.Source files.old files.new)
        job.now (writer_of W.Target output.old output.new) result }
{
    let mut opened = open_period(alloc, files, &job.paths)?;
    run_bound(alloc, job.question, &mut opened, output)
}
