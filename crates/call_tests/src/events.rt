//! A taker that fails at each event in turn: no further event comes.
ghost use Rattle.std.specs.Prelude.{◌≡◌, ◌-◌, MatchResult};
ghost use Rattle.call_tests.specs.declared.events.Stopper.{Stopper};

use crate::week_files::{WeekFiles, instance_of, one_nurse_one_shift, run_in_the_history};
use rota_core::Instance;
use rota_items::{Part, Taker, drive_constraints, drive_objective};
use std::process::Abort;

// Takes events while it has room, then refuses, and counts its refusals.
#[derive(Debug, Clone, Copy, PartialEq, Eq)]
struct Stopper {
    room: u32,
    refusals: u32,
}

#[derive(Debug, Drop)]
struct Full;

impl Stopper {
    fn take(&mut self) -> Result<(), Full>
        ensures taken { MatchResult result
            (λ _. self.new ≡ record self.old { room = self.old.room - 1 })
            (λ _. self.old.room ≡ 0) }
    {
        if self.room == 0 {
            self.refusals = self.refusals.saturating_add(1);
            return Err(Full);
        }
        self.room -= 1;
        Ok(())
    }
}

impl Taker for Stopper {
    type Fault = Full;

    ghost Value = { Stopper };

    ghost value = { λ stopper. stopper };

    ghost step = { λ stopper _. record stopper { room = stopper.room - 1 } };

    ghost left = { λ old _ _. old.room ≡ 0 };

    fn start_row(&mut self, _part: Part) -> Result<(), Full> {
        self.take()
    }

    fn term(&mut self, _coefficient: i64, _variable: u32) -> Result<(), Full> {
        self.take()
    }

    fn close_row(&mut self, _degree: i64) -> Result<(), Full> {
        self.take()
    }
}

// A drive, of the objective or of the constraints.
#[derive(Clone, Copy)]
enum Drive {
    Objective,
    Constraints,
}

impl Drive {
    fn over(self, instance: &Instance, stopper: &mut Stopper) -> Result<(), Full> {
        match self {
            Drive::Objective => drive_objective(instance, stopper),
            Drive::Constraints => drive_constraints(instance, stopper),
        }
    }
}

// The drive stops at the event that the taker refuses, and the taker gets no other.
fn stops(drive: Drive, instance: &Instance, room: u32) -> bool {
    let mut stopper = Stopper { room, refusals: 0 };
    let is_refused = drive.over(instance, &mut stopper).is_err();
    is_refused && stopper.room == 0 && stopper.refusals == 1
}

// The drive sends this number of events if the taker takes them all.
fn ends(drive: Drive, instance: &Instance, room: u32) -> bool {
    let mut stopper = Stopper { room, refusals: 0 };
    let is_whole = drive.over(instance, &mut stopper).is_ok();
    is_whole && stopper.room == 0 && stopper.refusals == 0
}

// The drive sends this number of events, and stops at each of them if the taker refuses it.
fn check_stops(rt: &impl Abort, drive: Drive, instance: &Instance, events: u32) {
    for room in 0..events {
        assert!(rt; stops(drive, instance, room), "{room} of {events}");
    }
    assert!(rt; ends(drive, instance, events), "{events}");
}

fn check_week(rt: &impl Abort, instance: &Instance, in_objective: u32, in_constraints: u32) {
    check_stops(rt, Drive::Objective, instance, in_objective);
    check_stops(rt, Drive::Constraints, instance, in_constraints);
}

// The week's files, and the numbers of events of its objective and of its constraints.
type Week = (WeekFiles, u32, u32);

// A plain week: the unit row and the rows of seven days have one term each, so 3 events per row. With the run
// in the history there are seven more windows, with 2, 3, 4, 4, 4, 4 and 4 terms, and an objective with seven
// terms.
fn weeks() -> [Week; 2] {
    [
        (one_nurse_one_shift(), 0, 24),
        (run_in_the_history(), 9, 63),
    ]
}

#[test]
fn drives_stop_at_each_event(rt: HostRuntime) {
    for (files, in_objective, in_constraints) in weeks() {
        match instance_of(rt.alloc(), &files) {
            Ok(instance) => check_week(&rt, &instance, in_objective, in_constraints),
            Err(_) => panic!(rt; "no week"),
        }
    }
}
