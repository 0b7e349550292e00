//! Worked rows of values, as tests: operators, methods, built-ins and texts. They stand in a crate
//! of their own so that the libraries are proved once and not a second time with their tests.
#![tactic(auto)]

#[cfg(test)]
mod builtins;
#[cfg(test)]
mod literals;
#[cfg(test)]
mod methods;
#[cfg(test)]
mod operators;
#[cfg(test)]
mod texts;
