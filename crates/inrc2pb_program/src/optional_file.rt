//! A file that a job names, or none.
ghost use Rattle.std.specs.Prelude.{◌≡◌, Some, [], false, true};
ghost use Rattle.inrc2pb_program.specs.OpenInputs.{optional_of};
ghost use Rattle.inrc2pb_program.specs.declared.optional_file.OptionalFile.TheVariants.{Absent, Named};

use byte_ports::{PortFault, Source};

/// A file, if one is named, otherwise an empty file at its end.
#[derive(Drop)]
pub enum OptionalFile<F> {
    Named(F),
    Absent,
}

impl<F> OptionalFile<F> {
    /// The file, if there is one, otherwise an empty file at its end.
    pub(crate) fn of(file: Option<F>) -> OptionalFile<F>
        ensures { result ≡ optional_of file }
    {
        match file {
            Some(file) => OptionalFile::Named(file),
            None => OptionalFile::Absent,
        }
    }
}

impl<F: Source> Source for OptionalFile<F> {
    ghost left = { elim [ Named file ↦ F.left file | Absent ↦ Some [] ] };

    ghost has_failed = { elim [ Named file ↦ F.has_failed file | Absent ↦ false ] };

    ghost has_ended = { elim [ Named file ↦ F.has_ended file | Absent ↦ true ] };

    fn read(&mut self, buffer: &mut [u8]) -> Result<usize, PortFault> {
        match self {
            OptionalFile::Named(file) => file.read(buffer),
            OptionalFile::Absent => Ok(0),
        }
    }
}
