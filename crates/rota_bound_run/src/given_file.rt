//! The facts that are given about all plans, from their file.
ghost use Rattle.std.specs.Prelude.{◌≡◌, ◌≤◌, IfOk, length};
ghost use Rattle.rota_core.specs.Certificates.{AreConditionsFor};
ghost use Rattle.rota_core.specs.Limits.{max_number};
ghost use Rattle.rota_core.specs.ScenarioTables.{numbers_of};
ghost use Rattle.rota_core.specs.declared.fault.FileName.TheVariants as names;
ghost use Rattle.rota_certificate_read.specs.FactsLayout.{facts, given_of};
ghost use Rattle.rota_pb.specs.RunPorts.{reader_of};
ghost use Rattle.rota_pb.specs.WeekFiles.{read_file as file_reading};
ghost use Rattle.rota_bound_run.specs.PeriodFiles.{reader_if};
ghost use Rattle.rota_bound_run.specs.PeriodRead.{read_given};
ghost use Rattle.rota_bound_run.specs.PeriodSteps.{EndsAs};

use byte_ports::Source;
use rota_certificate_read::{GivenFacts, read_facts};
use rota_core::Scenario;
use rota_pb::{Fault, read_file};
use std::alloc::Global;

// The facts of the file, for plans of this number of weeks.
fn read_facts_from<S: Source>(
    alloc: Global,
    scenario: &Scenario,
    weeks: u8,
    source: &mut S,
) -> Result<GivenFacts, Fault>
    ensures reads { EndsAs given_of
        (file_reading names.Facts (facts scenario.now weeks) (reader_of S.Source source.old source.new)).ends result }
    ensures few { IfOk result (λ given. length given.conditions.items ≤ max_number) }
    ensures shape { IfOk result (λ given. AreConditionsFor (numbers_of scenario.now) weeks given.conditions.items) }
    ensures lines { IfOk result (λ given. length given.lines.items ≡ length given.conditions.items) }
{
    let text = read_file(alloc, source)?;
    Ok(read_facts(alloc, scenario, weeks, &text)?)
}

/// The facts of the file, for plans of this number of weeks. Without a file there are none.
pub(crate) fn read_given<S: Source>(
    alloc: Global,
    scenario: &Scenario,
    weeks: u8,
    file: &mut Option<S>,
) -> Result<GivenFacts, Fault>
    ensures reads { EndsAs given_of (read_given scenario.now weeks (reader_if S.Source file.old file.new)).ends result }
    ensures few { IfOk result (λ given. length given.conditions.items ≤ max_number) }
    ensures shape { IfOk result (λ given. AreConditionsFor (numbers_of scenario.now) weeks given.conditions.items) }
    ensures lines { IfOk result (λ given. length given.lines.items ≡ length given.conditions.items) }
{
    match file {
        Some(source) => read_facts_from(alloc, scenario, weeks, source),
        None => Ok(GivenFacts {
            conditions: Vec::new(alloc),
            lines: Vec::new(alloc),
        }),
    }
}
