//! Small weeks: the changes of each to the week of one nurse, one shift type and one skill.
use crate::changes::Edit::{Is, Line};
use crate::changes::File::{His, Sce, Week};
use crate::changes::{Base, Changes};
use crate::jobs::{HISTORY, Kind, SCENARIO, WEEK};
use crate::tables::of;

/// The week of one nurse, one shift type and one skill, to be encoded.
pub const ENCODING: Base = Base {
    kind: Kind::Encode,
    early: false,
    inputs: [SCENARIO, HISTORY, WEEK, b"", b""],
};

/// The first constraints of its model: the unit variable, and at most one of a day's cells.
pub const ONE_CELL: &[u8] = b"+1 x8 >= 1 ;
-1 x1 >= -1 ;
-1 x2 >= -1 ;
-1 x3 >= -1 ;
-1 x4 >= -1 ;
-1 x5 >= -1 ;
-1 x6 >= -1 ;
-1 x7 >= -1 ;\n";

/// The same for two shift types or skills.
pub const TWO_CELLS: &[u8] = b"+1 x15 >= 1 ;
-1 x1 -1 x2 >= -1 ;
-1 x3 -1 x4 >= -1 ;
-1 x5 -1 x6 >= -1 ;
-1 x7 -1 x8 >= -1 ;
-1 x9 -1 x10 >= -1 ;
-1 x11 -1 x12 >= -1 ;
-1 x13 -1 x14 >= -1 ;\n";

/// Twelve assignments before the week. The maximum over both weeks is fifteen.
pub const TWELVE: Changes =
    of!([Sce Line(10, b"Full (10,15) (1,9) (1,9) 9 0"), His Line(4, b"Ann 12 0 None 0 0 0")]);

pub const OPTIMUM: Changes = of!([Week Is(b"WEEK_DATA s1 REQUIREMENTS
Day Nurse (1,3) (0,0) (0,0) (0,0) (0,0) (0,0) (0,0) SHIFT_OFF_REQUESTS = 0")]);

/// The solution files without assignments, and with one on each day.
pub const NOBODY: &[u8] = b"SOLUTION\n0 s1\n\nASSIGNMENTS = 0\n";

pub const ALL_DAYS: &[u8] = b"SOLUTION\n0 s1\n\nASSIGNMENTS = 7
Ann Mon Day Nurse\nAnn Tue Day Nurse\nAnn Wed Day Nurse\nAnn Thu Day Nurse\nAnn Fri Day Nurse
Ann Sat Day Nurse\nAnn Sun Day Nurse\n";
