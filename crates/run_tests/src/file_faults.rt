//! Files with a fault: the readers report its kind and its line.
use crate::changes::Edit::{Ends, Is, Line, Sized};
use crate::changes::File::{Fix, His, Last, Sce, Week};
use crate::changes::{Base, Edit, File, Texts, texts_of};
use crate::jobs::{self, HISTORY, MONDAY, SCENARIO, WEDNESDAY, WEEK};
use crate::weeks::NOBODY;
use rota_core::Kind::{Ended, LateWeek, Limit, NoNumber, OtherWord, Repeated, Trailing, Unknown};
use rota_core::{FileFault, FileName, Instance, Kind};
use rota_read::{read_fixed, read_history, read_scenario, read_solution, read_week};
use std::alloc::{AllocError, Global};
use std::process::Abort;
use std::test::Fail;

/// The unchanged week.
pub const BASE: Base = Base {
    kind: jobs::Kind::Extend,
    early: false,
    inputs: [SCENARIO, HISTORY, WEEK, WEDNESDAY, MONDAY],
};

/// Two nurses, two shift types, a requirement and requests.
pub const TWO_NURSES: Base = Base {
    kind: jobs::Kind::Extend,
    early: false,
    inputs: [
        b"SCENARIO = s1
WEEKS = 2
SKILLS = 1
Nurse
SHIFT_TYPES = 2
Early (1,9) Late (1,9)
FORBIDDEN_SHIFT_TYPES_SUCCESSIONS
Early 0 Late 0
CONTRACTS = 1
Full (1,9) (1,9) (1,9) 9 0
NURSES = 2
Ann Full 1 Nurse Bob Full 1 Nurse
",
        b"HISTORY 0 s1 NURSE_HISTORY
Bob 1 2 Late 3 4 5
Ann 9999 0 None 0 0 6
",
        b"WEEK_DATA
s1
REQUIREMENTS
Early Nurse (1,3) (0,0) (0,0) (0,0) (0,0) (0,0) (0,0)
SHIFT_OFF_REQUESTS = 3
Ann Early Mon
Ann Any Mon
Ann Early Mon
",
        NOBODY,
        b"SOLUTION 9 other ASSIGNMENTS = 2 Bob Sun Late Nurse Bob Sun Early Nurse",
    ],
};

/// The maximum numbers of shift types and skills.
const SIXTEEN: Base = Base {
    kind: jobs::Kind::Extend,
    early: false,
    inputs: [
        b"SCENARIO = s1
WEEKS = 2
SKILLS = 16
a b c d e f g h i j k l m n o p
SHIFT_TYPES = 16
A (1,9) B (1,9) C (1,9) D (1,9) E (1,9) F (1,9) G (1,9) H (1,9)
I (1,9) J (1,9) K (1,9) L (1,9) M (1,9) N (1,9) O (1,9) P (1,9)
FORBIDDEN_SHIFT_TYPES_SUCCESSIONS
A 16 A B C D E F G H I J K L M N O P
B 0 C 0 D 0 E 0 F 0 G 0 H 0 I 0 J 0 K 0 L 0 M 0 N 0 O 0 P 0
CONTRACTS = 1
Full (1,9) (1,9) (1,9) 9 0
NURSES = 1
Ann Full 16 a b c d e f g h i j k l m n o p
",
        HISTORY,
        WEEK,
        NOBODY,
        NOBODY,
    ],
};

/// A file, its change, and the kind and line of its fault.
type Faulty = (File, Edit<'static>, Kind, u32);

macro_rules! faults {
    ($($file:ident $edit:expr => $kind:ident $line:literal;)*) => { &[$(($file, $edit, $kind, $line)),*] };
}

const FAULTS: &[Faulty] = faults! {
    Sce Line(2, b"WEEKS = 0") => Limit 2;
    Sce Line(2, b"WEEKS = 53") => Limit 2;
    Sce Line(2, b"WEEKS = 10000") => Limit 2;
    Sce Line(2, b"WEEKS = 9999999999999999999999999999999999999999") => Limit 2;
    Sce Line(2, b"WEEKS = two") => NoNumber 2;
    Sce Line(2, b"WEEKS = -1") => NoNumber 2;
    Sce Line(2, b"WEEKS : 2") => OtherWord 2;
    Sce Line(2, b"weeks = 2") => OtherWord 2;
    Sce Line(3, b"SKILLS = 0") => Limit 3;
    Sce Line(3, b"SKILLS = 17") => Limit 3;
    Sce Line(3, b"SKILLS = 2 Nurse") => Repeated 4;
    Sce Line(5, b"SHIFT_TYPES = 0") => Limit 5;
    Sce Line(5, b"SHIFT_TYPES = 17") => Limit 5;
    Sce Line(5, b"SHIFT_TYPES = 2 Day (1,9)") => Repeated 6;
    Sce Line(6, b"Any (1,9)") => Repeated 6;
    Sce Line(6, b"None (1,9)") => Repeated 6;
    Sce Line(6, b"= (1,9)") => OtherWord 6;
    Sce Line(6, b"Day (1,10000)") => Limit 6;
    Sce Line(8, b"Day 2") => Limit 8;
    Sce Line(8, b"Day 1 Night") => Unknown 8;
    Sce Line(8, b"Any 0") => Unknown 8;
    Sce Line(9, b"CONTRACTS = 0") => Limit 9;
    Sce Line(9, b"CONTRACTS = 65") => Limit 9;
    Sce Line(9, b"CONTRACTS = 2 Full (1,9) (1,9) (1,9) 9 0") => Repeated 10;
    Sce Line(10, b"Full (1,9) (1,9) (1,9) 9 2") => Limit 10;
    Sce Line(10, b"Full (1,9) (1,9) (1 9) 9 0") => OtherWord 10;
    Sce Line(10, b"Full (1,9) (1,9) (1,nine) 9 0") => NoNumber 10;
    Sce Line(11, b"NURSES = 0") => Limit 11;
    Sce Line(11, b"NURSES = 1001") => Limit 11;
    Sce Line(12, b"Ann Half 1 Nurse") => Unknown 12;
    Sce Line(12, b"Ann Full 2 Nurse") => Limit 12;
    Sce Line(12, b"Ann Full 1 Head") => Unknown 12;
    Sce Line(13, b"more") => Trailing 13;
    Sce Ends(1, b"") => Ended 1;
    Sce Ends(1, b"SCENA") => OtherWord 1;
    Sce Ends(10, b"Full (1,") => Ended 10;
    Sce Ends(12, b"Ann Full 1 Nur") => Unknown 12;
    Sce Sized(4194305) => Limit 0;
    His Line(4, b"Ann 0 0 None 0 0") => Ended 4;
    His Line(4, b"Bob 0 0 None 0 0 0") => Unknown 4;
    His Line(4, b"Ann 0 0 Any 0 0 0") => Unknown 4;
    His Line(4, b"Ann 0 0 none 0 0 0") => Unknown 4;
    His Line(4, b"Ann 0 10000 None 0 0 0") => Limit 4;
    His Line(4, b"Ann 0 0 None 0 0 0\nAnn 0 0 None 0 0 0") => Trailing 5;
    His Is(b"HISTORY") => Ended 1;
    His Line(2, b"2 s1") => LateWeek 0;
    His Sized(4194305) => Limit 0;
    Week Is(b"WEEK_DATA") => Ended 1;
    Week Is(b"WEEK_DATA s1\n(") => OtherWord 2;
    Week Sized(4194305) => Limit 0;
    Fix Sized(4194305) => Limit 0;
    Last Sized(4194305) => Limit 0;
};

const FAULTS_OF_TWO: &[Faulty] = faults! {
    Sce Line(8, b"Early 0 Early 0") => Repeated 8;
    Sce Line(8, b"Early 2 Late Late") => Repeated 8;
    Sce Line(12, b"Ann Full 1 Nurse\nAnn Full 1 Nurse") => Repeated 13;
    His Is(b"HISTORY\n1 s1\nNURSE_HISTORY\nAnn 0 0 None 0 0 0\nAnn 0 0 None 0 0 0") => Repeated 5;
    His Is(b"HISTORY\n1 s1\nNURSE_HISTORY\nAnn 0 0 None 0 0 0\n") => Ended 4;
    Week Line(4, b"Night Nurse") => Unknown 4;
    Week Line(4, b"Any Nurse") => Unknown 4;
    Week Line(4, b"= Nurse") => OtherWord 4;
    Week Line(4, b"Early Head") => Unknown 4;
    Week Line(5, b"Early Nurse") => Repeated 5;
    Week Line(5, b"SHIFT_OFF_REQUESTS = 10000") => Limit 5;
    Week Line(6, b"Ann Night Mon") => Unknown 6;
    Week Line(6, b"Ann Early Day") => Unknown 6;
    Week Line(9, b"Ann") => Trailing 9;
    Week Ends(4, b"Early Nurse (1,3) (0,") => Ended 4;
    Week Ends(7, b"Ann Any") => Ended 7;
};

// The last name of a list is an earlier one.
const FAULTS_OF_SIXTEEN: &[Faulty] = faults! {
    Sce Line(4, b"a b c d e f g h i j k l m n o\na") => Repeated 5;
    Sce Line(7, b"I (1,9) J (1,9) K (1,9) L (1,9) M (1,9) N (1,9) O (1,9)\nH (1,9)") => Repeated 8;
    Sce Line(9, b"A 16 A B C D E F G H I J K L M N O\nO") => Repeated 10;
    Sce Line(9, b"A 16 A B C D E F G H\nA I J K L M N O P") => Repeated 10;
    Sce Line(10, b"B 0 C 0 D 0 E 0 F 0 G 0 H 0 I 0 J 0 K 0 L 0 M 0 N 0 O 0\nA 0") => Repeated 11;
    Sce Line(14, b"Ann Full 16 a b c d e f g h i j k l m n o\na") => Repeated 15;
    Sce Line(14, b"Ann Full 9 a b c d e f g h\nh") => Repeated 15;
    Sce Line(15, b"=") => Trailing 15;
    His Line(5, b"=") => Trailing 5;
    Week Line(5, b",") => Trailing 5;
    Fix Line(5, b"(") => Trailing 5;
    Last Line(5, b")") => Trailing 5;
};

// The rows of a solution file, from its second line on. Held cells have the same faults, with their own file
// name.
const SOLUTIONS: &[Faulty] = faults! {
    Last Is(b"SOLUTION 0 s1\nASSIGNMENTS = 10000") => Limit 2;
    Last Is(b"SOLUTION 0 s1\nASSIGNMENTS = 1\nCid Mon Early Nurse") => Unknown 3;
    Last Is(b"SOLUTION 0 s1\nASSIGNMENTS = 1\nAnn mon Early Nurse") => Unknown 3;
    Last Is(b"SOLUTION 0 s1\nASSIGNMENTS = 1\nAnn Mon None Nurse") => Unknown 3;
    Last Is(b"SOLUTION 0 s1\nASSIGNMENTS = 1\nAnn Mon Early Head") => Unknown 3;
    Last Is(b"SOLUTION 0 s1\nASSIGNMENTS = 1\nAnn Mon Early =") => OtherWord 3;
    Last Is(b"SOLUTION 0 s1\nASSIGNMENTS = 1\nAnn Mon Early") => Ended 3;
    Last Is(b"SOLUTION 0 s1\nASSIGNMENTS = 2\nAnn Mon Early Nurse\nAnn Mon Early\nNurse") => Repeated 5;
    Last Is(b"SOLUTION 0 s1\nASSIGNMENTS = 0\nAnn Mon Early Nurse") => Trailing 3;
};

/// The instance that the files of the week spell, with no cell held.
pub fn read_tables(alloc: Global, texts: &Texts, early: bool) -> Result<Instance, FileFault> {
    let scenario = read_scenario(alloc, &texts.sce)?;
    let history = read_history(alloc, &scenario, &texts.his)?;
    let week = read_week(alloc, &scenario, &texts.week)?;
    Instance::join(scenario, history, week, early)
}

/// The instance that the files spell, and the number of held and given cells, or their first fault in the
/// order of a run's checks.
pub fn read_all(alloc: Global, texts: &Texts) -> Result<(Instance, u32), FileFault> {
    let instance = read_tables(alloc, texts, false)?;
    let held = read_fixed(alloc, &instance, &texts.fix)?.count();
    let given = read_solution(alloc, &instance, &texts.last)?.count();
    Ok((instance, held.saturating_add(given)))
}

/// The file's name in a fault.
pub fn name_of(file: File) -> FileName {
    match file {
        Sce => FileName::Scenario,
        His => FileName::History,
        Week => FileName::Week,
        Fix => FileName::Fixed,
        Last => FileName::Solution,
    }
}

fn check_fault(
    rt: &impl Abort,
    alloc: Global,
    base: &Base,
    faulty: Faulty,
) -> Result<(), AllocError> {
    let (file, edit, kind, line) = faulty;
    let texts = texts_of(alloc, base, &[(file, edit)])?;
    let found = read_all(alloc, &texts);
    let file = name_of(file);
    let wanted = FileFault::Bad { kind, file, line };
    assert!(rt; found.is_err_and(|fault| fault == wanted), "{wanted}");
    Ok(())
}

#[test]
fn faults_of_files(rt: HostRuntime) -> Result<(), Fail> {
    for faulty in FAULTS {
        check_fault(&rt, rt.alloc(), &BASE, *faulty)?;
    }
    for faulty in FAULTS_OF_TWO {
        check_fault(&rt, rt.alloc(), &TWO_NURSES, *faulty)?;
    }
    for faulty in FAULTS_OF_SIXTEEN {
        check_fault(&rt, rt.alloc(), &SIXTEEN, *faulty)?;
    }
    Ok(())
}

#[test]
fn faults_of_solutions(rt: HostRuntime) -> Result<(), Fail> {
    for (_, edit, kind, line) in SOLUTIONS {
        check_fault(&rt, rt.alloc(), &TWO_NURSES, (Fix, *edit, *kind, *line))?;
        check_fault(&rt, rt.alloc(), &TWO_NURSES, (Last, *edit, *kind, *line))?;
    }
    Ok(())
}
