//! Rosters in files: a solution, and the held cells.
ghost use Rattle.rota_core.specs.declared.fault.FileName.TheVariants as names;
ghost use Rattle.rota_pb.specs.RunPorts.{reader_of};
ghost use Rattle.rota_pb.specs.WeekFiles.{read_roster as roster_reading};

use crate::fault::Fault;
use crate::file_bytes::read_file;
use byte_ports::Source;
use rota_core::{Instance, Roster};
use rota_read::{read_fixed, read_solution};
use std::alloc::Global;

/// Reads a solution file to its end, or to one byte more than it may have. Returns its roster.
pub fn read_roster<S: Source>(
    alloc: Global,
    instance: &Instance,
    source: &mut S,
) -> Result<Roster, Fault>
    ensures { (roster_reading names.Solution instance.now (reader_of S.Source source.old source.new)).ends result }
{
    let text = read_file(alloc, source)?;
    Ok(read_solution(alloc, instance, &text)?)
}

/// Reads a file of held cells to its end, or to one byte more than it may have. Returns its cells.
pub fn read_held<S: Source>(
    alloc: Global,
    instance: &Instance,
    source: &mut S,
) -> Result<Roster, Fault>
    ensures { (roster_reading names.Fixed instance.now (reader_of S.Source source.old source.new)).ends result }
{
    let text = read_file(alloc, source)?;
    Ok(read_fixed(alloc, instance, &text)?)
}
