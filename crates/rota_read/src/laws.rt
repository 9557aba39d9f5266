//! The laws of the files. Each law holds for all texts, and does nothing when it runs.
ghost use Rattle.rota_core.specs.ScenarioTables.{ScenarioTables};
ghost use Rattle.rota_read.specs.HistoryLayout.{history};
ghost use Rattle.rota_read.specs.HistoryRows.{GivesEachPast};
ghost use Rattle.rota_layout.specs.OneMeaning.{OneMeaning};
ghost use Rattle.rota_read.specs.ScenarioLayout.{scenario};
ghost use Rattle.rota_read.specs.SolutionLayout.{solution};
ghost use Rattle.rota_read.specs.SolutionText.{EachRosterHasItsText};
ghost use Rattle.rota_read.specs.WeekBound.{BoundEndsNoRows};
ghost use Rattle.rota_read.specs.WeekLayout.{week};

use rota_core::laws::{numerals_read_back, rosters_list_their_cells};

/// Every text spells one scenario or has one fault, and never both.
#[tactic(auto, using(rota_layout::proofs::ReadingLaws::one_meaning))]
pub fn each_text_means_one_scenario()
    ensures { OneMeaning scenario }
{}

/// For each scenario, every text spells one history or has one fault, and never both.
#[tactic(auto, using(rota_layout::proofs::ReadingLaws::one_meaning))]
pub fn each_text_means_one_history()
    ensures { (tables : ScenarioTables) → OneMeaning (history tables) }
{}

/// After the rows of a history file each nurse has her past.
#[tactic(auto, using(crate::proofs::HistoryLaws::gives_each_past))]
pub fn each_nurse_has_a_past()
    ensures { (tables : ScenarioTables) → GivesEachPast tables }
{}

/// For each scenario, every text spells one week or has one fault, and never both.
#[tactic(auto, using(rota_layout::proofs::ReadingLaws::one_meaning))]
pub fn each_text_means_one_week()
    ensures { (tables : ScenarioTables) → OneMeaning (week tables) }
{}

/// The bound on the rows of requirements, one row more than there are pairs of a shift type and a
/// skill, cuts off no row.
#[tactic(auto, using(crate::proofs::BoundLaws::bound_ends_no_rows))]
pub fn no_requirement_is_cut_off()
    ensures { BoundEndsNoRows }
{}

/// For each scenario, every text spells the assignments of one solution or has one fault, and never
/// both.
#[tactic(auto, using(rota_layout::proofs::ReadingLaws::one_meaning))]
pub fn each_text_means_one_solution()
    ensures { (tables : ScenarioTables) → OneMeaning (solution tables) }
{}

/// For each instance, the solution file of a roster with at most one cell for each nurse and day
/// spells that roster, if the file has at most `MAX_FILE_LEN` bytes.
pub fn each_roster_has_its_text()
    ensures { EachRosterHasItsText }
{
    numerals_read_back();
    rosters_list_their_cells();
}
