//! The numbers of a small week's cells.
use crate::week_files::{instance_of, two_nurses};
use rota_core::{Cell, Instance};
use rota_items::{cell_var, unit_var, var_cell};
use std::process::Abort;

// Numbers rise with the skill, then the shift type, then the day, then the nurse.
fn check_cells(rt: &impl Abort, instance: &Instance) {
    let mut number: u32 = 0;
    for nurse in 0..instance.nurses() {
        for day in 0..7 {
            for shift in 0..instance.shifts() {
                for skill in 0..instance.skills() {
                    let cell = Cell {
                        nurse,
                        day,
                        shift,
                        skill,
                    };
                    number = number.saturating_add(1);
                    let found = (cell_var(instance, cell), var_cell(instance, number));
                    assert!(rt; found == (number, Some(cell)));
                }
            }
        }
    }
    assert!(rt; number == 84);
}

// No other number has a cell.
fn check_others(rt: &impl Abort, instance: &Instance) {
    assert!(rt; unit_var(instance) == 85);
    for number in [0, 85, 86, u32::MAX] {
        assert!(rt; var_cell(instance, number).is_none(), "{number}");
    }
}

#[test]
fn cells_are_numbered_from_one(rt: HostRuntime) {
    match instance_of(rt.alloc(), &two_nurses()) {
        Ok(instance) => {
            check_cells(&rt, &instance);
            check_others(&rt, &instance);
        }
        Err(_) => panic!(rt; "no week"),
    }
}
