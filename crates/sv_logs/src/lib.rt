//! Searching a log, which is a list of acts, the newest first. A place of a log is one of its
//! suffixes.
//!
//! There is no code here: `specs/` defines the searches, and `proofs/` has their laws.
#![tactic(auto)]
