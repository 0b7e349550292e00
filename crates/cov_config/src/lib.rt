//! The settings of a project: `read_config` takes the bytes of a TOML file to the settings under
//! `tool.coverage`. `is_omitted` says whether patterns of its `omit` omit a path.
#![tactic(auto)]

mod config;
mod forms;
mod keys;
mod omits;
mod paths;
mod rows;
mod sections;

pub use config::{Config, ConfigError, read_config};
pub use omits::is_omitted;

/// Want of memory.
pub type NoMemory = std::alloc::AllocError;
