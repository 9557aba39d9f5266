//! The models of small weeks, and their counts by arithmetic and by counting the rows.
use crate::changes::{Base, Texts, texts_of};
use crate::file_faults::read_tables;
use crate::tables::{Row, check};
use rota_core::{FileFault, Instance};
use rota_items::{Counter, counts, drive_constraints, drive_objective};
use rota_read::read_fixed;
use std::alloc::{AllocError, Global};
use std::process::Abort;

// Arithmetic gives the same counts as counting.
fn is_counted(instance: &Instance) -> bool {
    let mut counter = Counter::new();
    let Ok(()) = drive_objective(instance, &mut counter);
    let Ok(()) = drive_constraints(instance, &mut counter);
    counter.counts == counts(instance)
}

// The same for the week of these files, with its held cells.
fn are_counted(alloc: Global, texts: &Texts, early: bool) -> Result<bool, FileFault> {
    let instance = read_tables(alloc, texts, early)?;
    if texts.fix.is_empty() {
        return Ok(is_counted(&instance));
    }
    let held = read_fixed(alloc, &instance, &texts.fix)?;
    Ok(is_counted(&instance.hold(held)))
}

/// Each row of the table has its model, and arithmetic gives the same counts as counting the model's rows.
pub fn check_models(
    rt: &impl Abort,
    alloc: Global,
    base: &Base,
    weeks: &[Row],
) -> Result<(), AllocError> {
    for Row(what, changes, _) in weeks {
        let texts = texts_of(alloc, base, changes)?;
        let found = are_counted(alloc, &texts, base.early);
        assert_eq!(rt; found, Ok(true), "{what}");
    }
    check(rt, alloc, base, weeks)
}
