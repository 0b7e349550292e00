//! Turns the call of a function into its label: the first that a hook, a plugin or the rule for
//! names of tests gives.
//!
//! A caller makes a `Contexts` by `Contexts::new` and asks it by `label`. `into_plugins` gives the
//! plugins back. `PrefixPlugin` labels functions by a prefix of their names.
#![tactic(auto)]

mod contexts;
mod names;
mod plugins;
mod prefix;
mod turns;

pub use contexts::Contexts;
pub use plugins::Plugin;
pub use prefix::PrefixPlugin;
