//! Worked rows of the command, as tests. They stand in a crate of their own so that the library is
//! proved once and not a second time with its tests.
#![tactic(auto)]

#[cfg(test)]
mod changes;
#[cfg(test)]
mod cuts;
#[cfg(test)]
mod engines;
#[cfg(test)]
mod faults;
#[cfg(test)]
mod foreign;
#[cfg(test)]
mod forty;
#[cfg(test)]
mod harness;
#[cfg(test)]
mod joins;
#[cfg(test)]
mod labels;
#[cfg(test)]
mod limits;
#[cfg(test)]
mod made;
#[cfg(test)]
mod programs;
#[cfg(test)]
mod refused;
#[cfg(test)]
mod reports;
#[cfg(test)]
mod rows;
#[cfg(test)]
mod runs;
#[cfg(test)]
mod scripts;
#[cfg(test)]
mod sessions;
#[cfg(test)]
mod settings;
#[cfg(test)]
mod sources;
#[cfg(test)]
mod stopped;
#[cfg(test)]
mod suites;
#[cfg(test)]
mod sweeps;
#[cfg(test)]
mod values;
#[cfg(test)]
mod words;
#[cfg(test)]
mod worked;
