//! The run for one week and for two, over files in memory. The bounds of two nurses come from the helpers; the
//! penalties are counted by hand.
use crate::small_periods::{
    ANN_WORKS, NOBODY, PROOF_OF_ONE, PROOF_OF_TWO, Run, TWO_FACTS, one_week, perform, two_weeks,
};
use crate::week_files::{WeekFiles as Week, one_nurse_one_shift, two_nurses};
use byte_ports::{CallPlan, MemoryTarget};
use rota_core::{FileFault, FileName, Kind, Rule};
use rota_pb::{Fault, PeriodFault, period_status};
use std::alloc::Global;
use std::process::Abort;
use std::test::Fail;

// The run writes the text.
fn check_text(rt: &impl Abort, alloc: Global, run: &Run, text: &[u8]) -> Result<(), Fail> {
    let mut out = MemoryTarget::new(alloc, 4096, CallPlan::new(4096, None))?;
    assert!(rt; perform(alloc, run, None, &mut out).is_ok());
    assert_eq!(rt; out.bytes(), text);
    Ok(())
}

// The run ends with the fault, and writes nothing.
fn check_fault(
    rt: &impl Abort,
    alloc: Global,
    run: &Run,
    failing: Option<(usize, u64)>,
    fault: PeriodFault,
) -> Result<(), Fail> {
    let mut out = MemoryTarget::new(alloc, 4096, CallPlan::new(4096, None))?;
    assert!(rt; perform(alloc, run, failing, &mut out) == Err(fault));
    assert!(rt; out.bytes().is_empty());
    Ok(())
}

#[test]
fn weeks_have_bounds(rt: HostRuntime) -> Result<(), Fail> {
    let one = Run {
        proof: Some(PROOF_OF_ONE),
        ..one_week(two_nurses())
    };
    check_text(&rt, rt.alloc(), &one, b"lower bound 40\n")?;
    let two = Run {
        proof: Some(PROOF_OF_TWO),
        ..two_weeks(two_nurses())
    };
    check_text(&rt, rt.alloc(), &two, b"lower bound 40\n")?;
    let minimums = Run {
        minimums: true,
        ..one
    };
    check_text(&rt, rt.alloc(), &minimums, b"no roster exists\n")?;
    let unknown = Run {
        proof: None,
        ..minimums
    };
    check_text(
        &rt,
        rt.alloc(),
        &unknown,
        b"no proof that no roster exists\n",
    )
}

// A nurse who is off in both weeks is off for 14 days in a row, 5 more than her contract allows (30 points each), and has 1
// assignment too few (20 points).
#[test]
fn rosters_are_judged_after_one_another(rt: HostRuntime) -> Result<(), Fail> {
    let one = Run {
        rosters: &[NOBODY],
        ..one_week(one_nurse_one_shift())
    };
    check_text(
        &rt,
        rt.alloc(),
        &one,
        b"lower bound 0\npenalty 0\noptimal\n",
    )?;
    let two = Run {
        rosters: &[NOBODY, NOBODY],
        ..two_weeks(one_nurse_one_shift())
    };
    check_text(&rt, rt.alloc(), &two, b"lower bound 0\npenalty 170\n")
}

#[test]
fn given_facts_are_met(rt: HostRuntime) -> Result<(), Fail> {
    let unmet = Run {
        given: Some(TWO_FACTS),
        rosters: &[NOBODY, NOBODY],
        ..two_weeks(one_nurse_one_shift())
    };
    check_fault(&rt, rt.alloc(), &unmet, None, PeriodFault::Unmet(4))?;
    assert!(rt; period_status(&PeriodFault::Unmet(4)) == 6);
    let met = Run {
        rosters: &[ANN_WORKS, NOBODY],
        ..unmet
    };
    let mut out = MemoryTarget::new(rt.alloc(), 4096, CallPlan::new(4096, None))?;
    assert!(rt; perform(rt.alloc(), &met, None, &mut out).is_ok());
    Ok(())
}

fn in_week(week: usize, fault: Fault) -> PeriodFault {
    PeriodFault::InWeek { week, fault }
}

#[test]
fn faults_name_their_week(rt: HostRuntime) -> Result<(), Fail> {
    let breaks = Fault::Breaks(Rule::H2);
    let one = Run {
        rosters: &[NOBODY],
        ..one_week(two_nurses())
    };
    check_fault(&rt, rt.alloc(), &one, None, PeriodFault::Run(breaks))?;
    let two = Run {
        rosters: &[NOBODY, NOBODY],
        ..two_weeks(two_nurses())
    };
    check_fault(&rt, rt.alloc(), &two, None, in_week(1, breaks))?;
    let late = Run {
        week: Week {
            history: b"HISTORY
1 s1
NURSE_HISTORY
Ann 0 0 None 0 0 0
",
            ..one_nurse_one_shift()
        },
        ..two_weeks(one_nurse_one_shift())
    };
    let fault = Fault::File(FileFault::Bad {
        kind: Kind::LateWeek,
        file: FileName::History,
        line: 0,
    });
    check_fault(&rt, rt.alloc(), &late, None, in_week(2, fault))
}

// The history after the first week would have 10,000 days off in a row.
#[test]
fn a_history_beyond_its_file_is_refused(rt: HostRuntime) -> Result<(), Fail> {
    let long = Run {
        week: Week {
            history: b"HISTORY
0 s1
NURSE_HISTORY
Ann 0 0 None 0 0 9993
",
            ..one_nurse_one_shift()
        },
        rosters: &[NOBODY, NOBODY],
        ..two_weeks(one_nurse_one_shift())
    };
    let fault = Fault::File(FileFault::Bad {
        kind: Kind::Limit,
        file: FileName::History,
        line: 0,
    });
    check_fault(&rt, rt.alloc(), &long, None, in_week(2, fault))
}

// The fact about Monday splits again, if another fact holds; if it does not hold; and in both cases of another fact.
const PROOFS: [(&[u8], bool); 3] = [
    (
        b"CERTIFICATE s1 WEEKS = 1 PRICES = 1 ROWS = 0 LEAVES = 4 SPLIT CHOICE 1 Ann Mon None SPLIT EVEN
        SPLIT CHOICE 1 Ann Mon None LEAF 0 SURCHARGES = 0 LEAF 0 SURCHARGES = 0 LEAF 0 SURCHARGES = 0 LEAF 0 SURCHARGES = 0",
        true,
    ),
    (
        b"CERTIFICATE s1 WEEKS = 1 PRICES = 1 ROWS = 0 LEAVES = 4 SPLIT CHOICE 1 Ann Mon None LEAF 0 SURCHARGES = 0
        SPLIT EVEN LEAF 0 SURCHARGES = 0 SPLIT CHOICE 1 Ann Mon None LEAF 0 SURCHARGES = 0 LEAF 0 SURCHARGES = 0",
        true,
    ),
    (
        b"CERTIFICATE s1 WEEKS = 1 PRICES = 1 ROWS = 0 LEAVES = 4 SPLIT EVEN
        SPLIT CHOICE 1 Ann Mon None LEAF 0 SURCHARGES = 0 LEAF 0 SURCHARGES = 0
        SPLIT CHOICE 1 Ann Mon None LEAF 0 SURCHARGES = 0 LEAF 0 SURCHARGES = 0",
        false,
    ),
];

#[test]
fn a_fact_comes_once_on_a_path(rt: HostRuntime) -> Result<(), Fail> {
    let repeated = PeriodFault::Run(Fault::File(FileFault::Bad {
        kind: Kind::Repeated,
        file: FileName::Certificate,
        line: 0,
    }));
    for (proof, repeats) in PROOFS {
        let run = Run {
            proof: Some(proof),
            ..one_week(one_nurse_one_shift())
        };
        if repeats {
            check_fault(&rt, rt.alloc(), &run, None, repeated)?;
        } else {
            check_text(&rt, rt.alloc(), &run, b"lower bound 0\n")?;
        }
    }
    Ok(())
}

// The week that the file with this number belongs to, of the files of two weeks with facts, a certificate and rosters.
fn week_of(file: usize) -> Option<usize> {
    match file {
        2 | 6 => Some(1),
        3 | 7 => Some(2),
        _ => None,
    }
}

// Each file in turn fails at its first call, and then at its second.
#[test]
fn files_fail(rt: HostRuntime) -> Result<(), Fail> {
    let run = Run {
        given: Some(b"FACTS s1\nROWS = 0\n"),
        proof: Some(
            b"CERTIFICATE s1\nWEEKS = 2\nPRICES = 1\nROWS = 0\nROWS = 0\nLEAVES = 1\nLEAF 0 SURCHARGES = 0\n",
        ),
        rosters: &[NOBODY, NOBODY],
        ..two_weeks(one_nurse_one_shift())
    };
    for file in 0..8 {
        let fault = match week_of(file) {
            Some(week) => in_week(week, Fault::Read),
            None => PeriodFault::Run(Fault::Read),
        };
        for calls in 0..2 {
            check_fault(&rt, rt.alloc(), &run, Some((file, calls)), fault)?;
        }
    }
    check_text(&rt, rt.alloc(), &run, b"lower bound 0\npenalty 170\n")
}
