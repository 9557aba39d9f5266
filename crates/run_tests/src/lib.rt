//! Tests of whole runs, over memory: encoding, decoding and extending.
#![tactic(auto)]

#[cfg(test)]
mod changed_tokens;
#[cfg(test)]
mod changes;
#[cfg(test)]
mod counted_weeks;
#[cfg(test)]
mod decoded_answers;
#[cfg(test)]
mod examples;
#[cfg(test)]
mod extended_rosters;
#[cfg(test)]
mod failing_ports;
#[cfg(test)]
mod file_faults;
#[cfg(test)]
mod good_files;
#[cfg(test)]
mod job_runs;
#[cfg(test)]
mod jobs;
#[cfg(test)]
mod memory_files;
#[cfg(test)]
mod performed_jobs;
#[cfg(test)]
mod refused_memory;
#[cfg(test)]
mod reports;
#[cfg(test)]
mod small_weeks;
#[cfg(test)]
mod soft_rules;
#[cfg(test)]
mod tables;
#[cfg(test)]
mod weeks;
