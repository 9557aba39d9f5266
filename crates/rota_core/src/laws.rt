//! The laws of numerals, of the list of a roster's cells, of the list of rules and of trees of cases. Each law holds for all numbers, rosters
//! or trees, and does nothing when it runs.
ghost use Rattle.std.specs.Prelude.{◌≡◌, ℕ};
ghost use Rattle.rota_core.specs.CellLists.{ListsCells, TablesListCells};
ghost use Rattle.rota_core.specs.NumeralLaws.{ReadsBack};
ghost use Rattle.rota_core.specs.Roster.{Roster};
ghost use Rattle.rota_core.specs.RosterTables.{HasShapeOf, RosterTables};
ghost use Rattle.rota_core.specs.Problem.{Problem};
ghost use Rattle.rota_core.specs.Rules.{hard_rules, soft_rules};
ghost use Rattle.rota_core.specs.TreeNodes.{nodes_of, tree_of};
ghost use Rattle.rota_core.specs.Trees.{Tree};

use crate::rule::Rule;

/// The numeral of a number is a word of digits. Its value is the number, and it has no digit that it does not
/// need.
pub fn numerals_read_back()
    ensures { (n : ℕ) → ReadsBack n }
{}

/// The list of a roster's cells in a week contains all of them and no others, each once and in order. If the
/// roster keeps H1, the list has at most 7 * N cells for N nurses. The tables of a roster of the week's shape
/// have the same list, and give its length.
pub fn rosters_list_their_cells()
    ensures cells { (problem : Problem) (roster : Roster) → ListsCells problem roster }
    ensures tables { (problem : Problem) (t : RosterTables) → HasShapeOf problem t → TablesListCells problem t }
{}

/// The rules are in the order of their numbers.
pub fn rules_in_order()
    ensures hard { Rule.HARD ≡ hard_rules }
    ensures soft { Rule.SOFT ≡ soft_rules }
{}

/// The nodes of a tree of cases in preorder make this tree, and no other.
pub fn nodes_make_their_tree()
    ensures { (tree : Tree) → tree_of (nodes_of tree) ≡ tree }
{}
