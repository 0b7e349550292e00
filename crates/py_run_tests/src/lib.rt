//! Turns worked rows of programs into tests: what a source writes, how it ends, its steps and its
//! events. They stand in a crate of their own so that the libraries are proved once and not a
//! second time with their tests.
#![tactic(auto)]

#[cfg(test)]
mod calls;
#[cfg(test)]
mod checked;
#[cfg(test)]
mod codes;
#[cfg(test)]
mod endings;
#[cfg(test)]
mod expressions;
#[cfg(test)]
mod flows;
#[cfg(test)]
mod functions;
#[cfg(test)]
mod handlers;
#[cfg(test)]
mod imports;
#[cfg(test)]
mod inputs;
#[cfg(test)]
mod log;
#[cfg(test)]
mod machine;
#[cfg(test)]
mod patterns;
#[cfg(test)]
mod programs;
#[cfg(test)]
mod rows;
#[cfg(test)]
mod statements;
#[cfg(test)]
mod terminal;
#[cfg(test)]
mod worked;
#[cfg(test)]
mod writer;
#[cfg(test)]
mod written;
#[cfg(test)]
mod written_rows;
