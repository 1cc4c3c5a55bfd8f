// Runs with a journal over lent buffers, and single requests over a board that a host keeps: what the exported calls do.
#![tactic(auto)]

pub mod host;
pub mod lending;
pub mod run;
