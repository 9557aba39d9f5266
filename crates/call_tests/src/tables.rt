//! Rosters, truth values and names.
use crate::week_files::{instance_of, one_nurse_one_shift};
use indexmap::IndexSet;
use rota_core::{
    Bits, Cell, FileFault, Instance, Roster, Scenario, add_name, index_of_name, is_name,
};
use rota_read::read_scenario;
use std::alloc::Global;
use std::test::Fail;

#[test]
fn names_have_indices(rt: HostRuntime) -> Result<(), Fail> {
    let mut names = IndexSet::new(rt.alloc());
    add_name(rt.alloc(), &mut names, b"Ann")?;
    assert!(rt; index_of_name(&names, b"Ann") == Some(0) && !is_name(&names, b"Bob"));
    Ok(())
}

// The copy of a scenario that is freed before the copy is used.
fn copied(alloc: Global) -> Result<Scenario, FileFault> {
    let scenario = read_scenario(alloc, one_nurse_one_shift().scenario)?;
    Ok(scenario.copy(alloc)?)
}

#[test]
fn scenarios_are_copied(rt: HostRuntime) {
    match copied(rt.alloc()) {
        Ok(copy) => {
            assert!(rt; copy.name() == b"s1".as_slice() && copy.weeks() == 2 && copy.nurses() == 1);
            let found = (
                copy.find_nurse(b"Ann"),
                copy.find_shift(b"Day"),
                copy.find_skill(b"Nurse"),
                copy.find_nurse(b"Bob"),
            );
            assert!(rt; found == (Some(0), Some(0), Some(0), None));
        }
        Err(_) => panic!(rt; "no scenario"),
    }
}

// The true values are at a word's last index, at the next word's first, and after two words that are all
// false.
#[test]
fn words_without_a_true_value_are_passed_over(rt: HostRuntime) -> Result<(), Fail> {
    let mut bits = Bits::new(rt.alloc(), 300)?;
    bits.set(63);
    bits.set(64);
    bits.set(259);
    let mut indices = bits.true_indices();
    let found = (
        indices.next(),
        indices.next(),
        indices.next(),
        indices.next(),
    );
    assert!(rt; found == (Some(63), Some(64), Some(259), None));
    Ok(())
}

// No truth value at all: none is true, and each is out of its bounds.
#[test]
fn no_bits_are_bits(rt: HostRuntime) -> Result<(), Fail> {
    let bits = Bits::new(rt.alloc(), 0)?;
    assert!(rt; bits.len() == 0 && bits.true_indices().next() == None);
    Ok(())
}

const SATURDAY: Cell = Cell {
    nurse: 0,
    day: 5,
    shift: 0,
    skill: 0,
};

const SUNDAY: Cell = Cell { day: 6, ..SATURDAY };

// A cell that is put twice is in the roster only one time.
fn is_set(alloc: Global, instance: &Instance) -> bool {
    let Ok(mut roster) = Roster::new(alloc, instance) else {
        return false;
    };
    let is_new = (roster.put(SUNDAY), roster.put(SUNDAY));
    let has = (roster.has(SUNDAY), roster.has(SATURDAY));
    is_new == (true, false) && has == (true, false) && roster.count() == 1
}

// The bits of Saturday's cell and beyond the cells are true.
fn is_of_bits(alloc: Global, instance: &Instance) -> bool {
    if instance.nurses() != 1 || instance.shifts() != 1 || instance.skills() != 1 {
        return false;
    }
    let Ok(mut bits) = Bits::new(alloc, 9) else {
        return false;
    };
    bits.set(5);
    bits.set(8);
    let seen = (bits.len(), bits.get(5), bits.get(6));
    let roster = Roster::of_bits(bits, instance);
    seen == (9, true, false) && roster.has(SATURDAY) && !roster.has(SUNDAY) && roster.count() == 1
}

#[test]
fn rosters_are_sets_and_bits(rt: HostRuntime) {
    match instance_of(rt.alloc(), &one_nurse_one_shift()) {
        Ok(instance) => {
            assert!(rt; is_set(rt.alloc(), &instance) && is_of_bits(rt.alloc(), &instance));
        }
        Err(_) => panic!(rt; "no week"),
    }
}
