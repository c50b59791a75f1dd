//! Tests of the crates below through their public calls, a module for each. A crate is proved once more with its tests, so
//! those that need nothing private stand here, where only they are proved.
#![tactic(auto)]

#[cfg(test)]
mod audits;
#[cfg(test)]
mod banks;
#[cfg(test)]
mod boards;
#[cfg(test)]
mod cores;
#[cfg(test)]
mod cycles;
#[cfg(test)]
mod dealt_sensors;
#[cfg(test)]
mod detectors;
#[cfg(test)]
mod dialogs;
#[cfg(test)]
mod drawn_cycles;
#[cfg(test)]
mod drives;
#[cfg(test)]
mod fleets;
#[cfg(test)]
mod generators;
#[cfg(test)]
mod live_drives;
#[cfg(test)]
mod logs;
#[cfg(test)]
mod memories;
#[cfg(test)]
mod migrations;
#[cfg(test)]
mod powered_runs;
#[cfg(test)]
mod readers;
#[cfg(test)]
mod readers_beside;
#[cfg(test)]
mod records;
#[cfg(test)]
mod runs;
#[cfg(test)]
mod seats;
#[cfg(test)]
mod selections;
#[cfg(test)]
mod sensors;
#[cfg(test)]
mod traces;
#[cfg(test)]
mod units;
#[cfg(test)]
mod windows;
