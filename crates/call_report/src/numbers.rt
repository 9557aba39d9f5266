//! The numbers of the cells, and the size of the model.

use crate::files::Stop;
use rota_core::{Cell, Instance};
use rota_items::{
    Counter, Counts, cell_var, counts, drive_constraints, drive_objective, unit_var, var_cell,
};

// The last cell of the week.
fn last_cell(instance: &Instance) -> Cell {
    Cell {
        nurse: instance.nurses() - 1,
        day: 6,
        shift: instance.shifts() - 1,
        skill: instance.skills() - 1,
    }
}

// The number of the last cell and the cell of that number, and the unit variable's number, which has no cell.
fn print_variables<R: Print>(rt: &R, instance: &Instance) -> Result<(), Stop> {
    print_variable(
        rt,
        instance,
        "last cell",
        cell_var(instance, last_cell(instance)),
    )?;
    print_variable(rt, instance, "unit", unit_var(instance))
}

// The number, and its cell: nurse, day, shift type and skill.
fn print_variable<R: Print>(
    rt: &R,
    instance: &Instance,
    name: &str,
    number: u32,
) -> Result<(), Stop> {
    match var_cell(instance, number) {
        Some(cell) => println!(rt;
            "{name} {number}: {} {} {} {}",
            cell.nurse, cell.day, cell.shift, cell.skill
        )?,
        None => println!(rt; "{name} {number}: no cell")?,
    }
    Ok(())
}

// The numbers of variables and constraints.
fn print_counts<R: Print>(rt: &R, way: &str, counts: Counts) -> Result<(), Stop> {
    println!(rt; "by {way} {} {}", counts.variables, counts.constraints)?;
    Ok(())
}

/// The numbers of the last cell and of the unit variable, and the counts of the model, by arithmetic and
/// by a counter of the rows.
pub fn print_numbers<R: Print>(rt: &R, instance: &Instance) -> Result<(), Stop> {
    print_variables(rt, instance)?;
    print_counts(rt, "arithmetic", counts(instance))?;
    let mut counter = Counter::new();
    let Ok(()) = drive_objective(instance, &mut counter);
    let Ok(()) = drive_constraints(instance, &mut counter);
    print_counts(rt, "counting", counter.counts)
}
