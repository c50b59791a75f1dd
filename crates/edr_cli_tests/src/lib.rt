//! Tests of the top calls, of `edr_cli`, through their public calls: whole runs, and the lines of the faults. `edr_tests` says why
//! they stand in a crate of their own.
#![tactic(auto)]

#[cfg(test)]
mod commands;
#[cfg(test)]
mod fault_lines;
