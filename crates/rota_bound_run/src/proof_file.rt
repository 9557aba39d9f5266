//! The certificate, from its file.
ghost use Rattle.std.specs.Prelude.{IfOk, MatchResult};
ghost use Rattle.rota_core.specs.declared.fault.FileName.TheVariants as names;
ghost use Rattle.rota_certificate_read.specs.CertificateLayout.{IsCertificateOf, SpellsCertificate, certificate};
ghost use Rattle.rota_pb.specs.RunPorts.{IsRead, reader_of};
ghost use Rattle.rota_pb.specs.WeekFiles.{FailsCheck};
ghost use Rattle.rota_bound_run.specs.PeriodFiles.{reader_if};
ghost use Rattle.rota_bound_run.specs.CertificateRead.{AreFreeTables, IsFreeCertificate, check_paths, read_proof};

use byte_ports::Source;
use rota_certificate::repeats_fact;
use rota_certificate_read::read_certificate;
use rota_core::{CaseTree, Certificate, FileFault, FileName, Kind, Leaf, Node, Prices, Scenario};
use rota_pb::{Fault, read_file};
use std::alloc::{AllocError, Global};

// The certificate of the file, for plans of this number of weeks.
fn read_certificate_from<S: Source>(
    alloc: Global,
    scenario: &Scenario,
    weeks: u8,
    source: &mut S,
) -> Result<Certificate, Fault>
    ensures { let reader = reader_of S.Source source.old source.new in
        MatchResult result (λ found. IsRead (SpellsCertificate scenario.now weeks) reader found × IsCertificateOf scenario.now weeks found)
        (FailsCheck names.Certificate (certificate scenario.now weeks) reader) }
{
    let text = read_file(alloc, source)?;
    Ok(read_certificate(alloc, scenario, weeks, &text)?)
}

// A table for each week, in which each price is 0.
fn free_tables(alloc: Global, scenario: &Scenario, weeks: u8) -> Result<Vec<Prices>, AllocError>
    ensures { IfOk result (λ tables. AreFreeTables scenario.now weeks tables.items) }
{
    let mut tables = Vec::new(alloc);
    for _ in 0..weeks {
        tables.push(Prices::new(alloc, scenario.shifts(), scenario.skills())?)?;
    }
    Ok(tables)
}

// A certificate of one leaf, in which each price is 0.
fn free_certificate(
    alloc: Global,
    scenario: &Scenario,
    weeks: u8,
) -> Result<Certificate, AllocError>
    ensures { IfOk result (IsFreeCertificate scenario.now weeks) }
{
    let mut prices = Vec::new(alloc);
    prices.push(free_tables(alloc, scenario, weeks)?)?;
    let mut nodes = Vec::new(alloc);
    nodes.push(Node::Leaf(Leaf {
        prices: 0,
        surcharges: Vec::new(alloc),
    }))?;
    let tree = CaseTree { nodes };
    Ok(Certificate { prices, tree })
}

// The certificate, if no fact occurs more than once on a path of its tree.
fn check_paths(alloc: Global, certificate: Certificate) -> Result<Certificate, Fault>
    ensures { (check_paths certificate).ends result }
{
    if repeats_fact(alloc, &certificate)? {
        return Err(Fault::File(FileFault::Bad {
            kind: Kind::Repeated,
            file: FileName::Certificate,
            line: 0,
        }));
    }
    Ok(certificate)
}

/// The certificate of the file, for plans of this number of weeks, if no fact occurs more than once on a path of its
/// tree. Without a file each price is 0.
pub(crate) fn read_proof<S: Source>(
    alloc: Global,
    scenario: &Scenario,
    weeks: u8,
    file: &mut Option<S>,
) -> Result<Certificate, Fault>
    ensures reads { (read_proof scenario.now weeks (reader_if S.Source file.old file.new)).ends result }
    ensures shape { IfOk result (IsCertificateOf scenario.now weeks) }
{
    match file {
        Some(source) => {
            let certificate = read_certificate_from(alloc, scenario, weeks, source)?;
            check_paths(alloc, certificate)
        }
        None => Ok(free_certificate(alloc, scenario, weeks)?),
    }
}
