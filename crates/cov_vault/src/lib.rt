//! Data between runs, by name: `Vault` lists its names, loads, saves and removes. Each vault counts
//! its faults, and a vault in memory also tells what its names hold, so that a contract can say
//! what a program keeps.
//!
//! Tests hand in the vaults in memory: `MemVault` fails at chosen calls, `SureVault` never.
#![tactic(auto)]

mod entries;
mod memory;
mod names;
mod sure;
mod vault;

pub use memory::MemVault;
pub use names::{first_named, names_of};
pub use sure::SureVault;
pub use vault::{Content, Vault, VaultError};
