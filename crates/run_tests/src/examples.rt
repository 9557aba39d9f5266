//! The example at the top of `rota_pb`, line for line: `tests/pages/repository.sh` compares them.
use crate::jobs::encoding;
use byte_ports::{CallPlan, MemorySource, MemoryTarget};
use rota_pb::{Choice, run_encode};
use std::test::Fail;

#[test]
fn example_of_rota_pb(rt: HostRuntime) -> Result<(), Fail> {
    let (alloc, [scenario, history, week, ..]) = (rt.alloc(), encoding().inputs);
    let plan = CallPlan::new(4096, None);
    let mut sce = MemorySource::new(scenario, plan);
    let mut his = MemorySource::new(history, plan);
    let mut week = MemorySource::new(week, plan);
    let mut fix = MemorySource::new(b"", plan);
    let mut out = MemoryTarget::new(alloc, 4096, plan)?;
    let choice = Choice {
        early: false,
        fixed: false,
    };
    run_encode(
        alloc, choice, &mut sce, &mut his, &mut week, &mut fix, &mut out,
    )?;
    assert!(rt; out.bytes().starts_with(b"* #variable= "));
    Ok(())
}
