//! The laws of the specification: statements about every history, which follow from the definitions
//! of `sv_history`, without the server's code. Nothing here runs.
#![tactic(auto)]

pub mod laws;
