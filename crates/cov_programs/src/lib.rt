//! Interaction programs: calls of objects, and what follows from each answer; how a program ends
//! over objects, and laws of all programs. What a crate above states of its code is that it follows
//! such a program. Nothing here runs.
#![tactic(auto)]
