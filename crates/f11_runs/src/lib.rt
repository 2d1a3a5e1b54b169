//! Laws of whole lists of requests, served one after another in any interleaving of the tasks.
//!
//! Stands on `f11_store`, which says what one request does. There is no code here but functions that do
//! nothing, whose contracts are the laws.
#![tactic(auto)]

pub mod laws;
pub mod worked;
