//! Rows of compiled code, computed by the prover: a machine does with the code of some programs
//! what these mean. The rows stand in `proofs/`; there is nothing to call.
#![tactic(auto)]
