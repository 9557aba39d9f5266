//! The laws: the meaning of the model of a week, and its size. Each law holds for all weeks, and does nothing
//! when it runs.

mod count_laws;
mod extension_laws;
mod item_laws;
mod model_laws;
mod rule_laws;
mod run_laws;
mod size_laws;
mod worked_weeks;

pub use count_laws::{counter_counts_models, counter_counts_rows};
pub use extension_laws::extension_truths_are_those_of_the_variables;
pub use item_laws::{
    extension_satisfies_items, item_holds_from_its_shortage_on,
    satisfied_items_cost_their_shortages,
};
pub use model_laws::{
    cells_and_variables_are_inverse, constraints_have_rising_terms,
    extension_fails_first_at_first_broken_rule, first_failing_row_has_first_broken_rule,
    hard_constraints_mean_hard_rules, held_cells_add_only_that_they_are_true,
    held_cells_keep_rules_where_the_model_is_satisfied, min_objective_is_min_penalty,
    objective_has_rising_terms, objective_is_small, rosters_extend_at_their_penalty,
    satisfying_assignments_are_rosters, variables_are_those_of_the_constraints,
};
pub use rule_laws::{
    alike_rosters_cost_the_same, constant_is_sum_of_its_parts, items_charge_each_rule_its_cost,
    items_requests_and_constant_charge_penalty, no_item_lacks_more_than_its_slacks,
    one_cell_a_day_is_at_most_one, soft_rules_have_charges,
};
pub use run_laws::{
    day_items_charge_day_cost, run_items_charge_a_nurses_runs, run_items_charge_run_cost,
};
pub use size_laws::{
    constraint_coefficients_are_units, constraints_are_few, objective_coefficients_are_positive,
    objective_coefficients_are_small, objective_is_not_negative, variables_are_few,
};
pub use worked_weeks::{worked_runs_have_their_patterns, worked_weeks_have_their_models};
