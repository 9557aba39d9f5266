//! A job, performed over any files, input and outputs.
ghost use Rattle.std.specs.Prelude.{◌≡◌, None, option_map, string_bytes};
ghost use Rattle.inrc2pb_program.specs.JobOutcomes.{Decodes, Encodes, Extends, JobOutcome};
ghost use Rattle.inrc2pb_program.specs.Jobs.{output_path_of};
ghost use Rattle.byte_ports.specs.Openers.{opener_at};
ghost use Rattle.inrc2pb_program.specs.OpenInputs.{readers_of};
ghost use Rattle.rota_pb.specs.Decoding.{decode_run};
ghost use Rattle.rota_pb.specs.RunPorts.{reader_of, writer_of};

use crate::job::{Inputs, Job};
use crate::open_inputs::{OpenInputs, open_inputs};
use byte_ports::{HasPath, Opens, Source, Target, open};
use rota_pb::{Fault, run_decode, run_encode, run_extend};
use std::alloc::Global;

/// Performs the job. It opens the files that it reads among `files`. It writes the job's output file to
/// `file`, and everything else to `output`. `input` and `output` are the program's own.
///
/// Here the program `inrc2pb` performs a job with its own types for files, input and output:
///
/// ```
/// let mut files = HostFiles::new(rt);
/// let mut input = FromRead::new(StandardInput::new(rt));
/// let mut file = FileOnFirstWrite::new(rt);
/// file.place(job.output_path())?;
/// let mut output = ToWrite::new(io::writer(rt));
/// perform(rt.alloc(), &job, &mut files, &mut input, &mut file, &mut output)
/// ```
///
/// # Errors
/// `Read` if a file does not open: then neither the input nor an output is touched. Otherwise the errors of
/// the run.
pub fn perform<O: Opens, A: Source, F: Target + HasPath, W: Target + HasPath>(
    alloc: Global,
    job: &Job,
    files: &mut O,
    input: &mut A,
    file: &mut F,
    output: &mut W,
) -> Result<(), Fault>
    requires file { F.path file.old ≡ output_path_of job.now }
    requires output { W.path output.old ≡ None }
    ensures { JobOutcome (opener_at O.Opens O.File.Source files.old files.new)
        job.now (reader_of A.Source input.old input.new)
        (writer_of F.Target file.old file.new) (writer_of W.Target output.old output.new) result }
{
    match job {
        Job::Encode { inputs, opb } => match opb {
            Some(_) => encode(alloc, files, inputs, file),
            None => encode(alloc, files, inputs, output),
        },
        Job::Decode { inputs, answer, .. } => {
            decode(alloc, files, inputs, answer, input, file, output)
        }
        Job::Extend { inputs, from } => extend(alloc, files, inputs, from.as_str(), output),
    }
}

fn encode<O: Opens, W: Target>(
    alloc: Global,
    files: &mut O,
    inputs: &Inputs,
    out: &mut W,
) -> Result<(), Fault>
    ensures { Encodes (opener_at O.Opens O.File.Source files.old files.new)
        inputs.now (writer_of W.Target out.old out.new) result }
{
    let mut opened = open_inputs(files, inputs)?;
    run_encode(
        alloc,
        opened.choice,
        &mut opened.sce,
        &mut opened.his,
        &mut opened.week,
        &mut opened.fix,
        out,
    )
}

fn decode<O: Opens, A: Source, F: Target, W: Target>(
    alloc: Global,
    files: &mut O,
    inputs: &Inputs,
    answer: &Option<String>,
    input: &mut A,
    sol: &mut F,
    report: &mut W,
) -> Result<(), Fault>
    ensures { Decodes (opener_at O.Opens O.File.Source files.old files.new)
        inputs.now (option_map string_bytes answer.now) (reader_of A.Source input.old input.new)
        (writer_of F.Target sol.old sol.new) (writer_of W.Target report.old report.new) result }
{
    let mut opened = open_inputs(files, inputs)?;
    match answer {
        Some(path) => {
            let mut given = open(files, path.as_str())?;
            decode_opened(alloc, &mut opened, &mut given, sol, report)
        }
        None => decode_opened(alloc, &mut opened, input, sol, report),
    }
}

fn decode_opened<F: Source, A: Source, W: Target, R: Target>(
    alloc: Global,
    opened: &mut OpenInputs<F>,
    answer: &mut A,
    sol: &mut W,
    report: &mut R,
) -> Result<(), Fault>
    ensures { (decode_run opened.old.choice (readers_of F.Source opened.old opened.new)
        (reader_of A.Source answer.old answer.new)
        (writer_of W.Target sol.old sol.new) (writer_of R.Target report.old report.new)).ends result }
{
    run_decode(
        alloc,
        opened.choice,
        &mut opened.sce,
        &mut opened.his,
        &mut opened.week,
        &mut opened.fix,
        answer,
        sol,
        report,
    )
}

fn extend<O: Opens, W: Target>(
    alloc: Global,
    files: &mut O,
    inputs: &Inputs,
    from: &str,
    out: &mut W,
) -> Result<(), Fault>
    ensures { Extends (opener_at O.Opens O.File.Source files.old files.new)
        inputs.now from.now (writer_of W.Target out.old out.new) result }
{
    let mut opened = open_inputs(files, inputs)?;
    let mut given = open(files, from)?;
    run_extend(
        alloc,
        opened.choice,
        &mut opened.sce,
        &mut opened.his,
        &mut opened.week,
        &mut opened.fix,
        &mut given,
        out,
    )
}
