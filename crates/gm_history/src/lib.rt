//! Histories of the abstract server: when each of its notes may be added, and by which steps. The servers and the laws
//! (gm_laws) are proved from what is proved here of every history. Nothing here runs.
#![tactic(auto)]

pub mod laws;
