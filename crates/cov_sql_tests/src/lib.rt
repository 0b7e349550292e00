//! Rows of data files as tests: over databases in memory, over disks in memory that stop, and in a
//! folder.
#![tactic(auto)]

#[cfg(test)]
mod bases;
#[cfg(test)]
mod bits;
#[cfg(test)]
mod calls;
#[cfg(test)]
mod folder;
#[cfg(test)]
mod foreign;
#[cfg(test)]
mod joining;
#[cfg(test)]
mod reading;
#[cfg(test)]
mod refusing;
#[cfg(test)]
mod rowids;
#[cfg(test)]
mod saving;
#[cfg(test)]
mod stops;
#[cfg(test)]
mod texts;
#[cfg(test)]
mod vaults;
#[cfg(test)]
mod writing;
