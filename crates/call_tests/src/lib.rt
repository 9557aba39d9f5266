//! Tests of the public calls from which runs are built: tables, rosters, numbers, rows, answers and ports.
#![tactic(auto)]

#[cfg(test)]
mod answers;
#[cfg(test)]
mod cells;
#[cfg(test)]
mod certificate_files;
#[cfg(test)]
mod events;
#[cfg(test)]
mod examples;
#[cfg(test)]
mod fact_files;
#[cfg(test)]
mod memory_ports;
#[cfg(test)]
mod model_texts;
#[cfg(test)]
mod output_files;
#[cfg(test)]
mod own_source;
#[cfg(test)]
mod own_week;
#[cfg(test)]
mod period_runs;
#[cfg(test)]
mod port_calls;
#[cfg(test)]
mod price_tables;
#[cfg(test)]
mod refused_tables;
#[cfg(test)]
mod run_counts;
#[cfg(test)]
mod small_periods;
#[cfg(test)]
mod std_ports;
#[cfg(test)]
mod tables;
#[cfg(test)]
mod target_calls;
#[cfg(test)]
mod week_files;
#[cfg(test)]
mod written_answers;
