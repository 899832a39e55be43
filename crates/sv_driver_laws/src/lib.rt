//! The laws of the server's driver: statements about any number of its sweeps, over any wire. They
//! are proved from the definitions of `sv_serve` and the laws of `sv_laws`. Nothing here runs.
#![tactic(auto)]

pub mod laws;
