//! The inputs of a job, open.
ghost use Rattle.byte_ports.specs.Openers.{OpensAs, opener_at};
ghost use Rattle.inrc2pb_program.specs.OpenInputs.{open_inputs as inputs_opening};

use crate::job::Inputs;
use crate::optional_file::OptionalFile;
use byte_ports::{OpenFault, Opens, open, open_if_named};
use rota_pb::Choice;

/// The inputs of every job, open, and the choices for its run.
pub struct OpenInputs<F> {
    pub choice: Choice,
    pub sce: F,
    pub his: F,
    pub week: F,
    pub fix: OptionalFile<F>,
}

impl<F: Drop> Drop for OpenInputs<F> {
    fn drop(self) {
        let OpenInputs {
            choice: _,
            sce: _,
            his: _,
            week: _,
            fix: _,
        } = self;
    }
}

/// Opens the inputs, in the order in which they are checked.
///
/// # Errors
/// `Read` if an input does not open.
pub fn open_inputs<O: Opens>(
    files: &mut O,
    inputs: &Inputs,
) -> Result<OpenInputs<O::File>, OpenFault>
    ensures { OpensAs (opener_at O.Opens O.File.Source files.old files.new)
        (inputs_opening O.File.Source inputs.now) result }
{
    Ok(OpenInputs {
        choice: inputs.choice(),
        sce: open(files, inputs.sce.as_str())?,
        his: open(files, inputs.his.as_str())?,
        week: open(files, inputs.week.as_str())?,
        fix: OptionalFile::of(open_if_named(files, &inputs.fix)?),
    })
}
