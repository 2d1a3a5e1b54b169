//! Tests of what stands under the commands: copies, RT-11 volumes, texts and scripts.
//!
//! They are of what no command shows, or shows only in part: devices that fail, readers and writers that are slow or full, calls on
//! files whose directories fill, and inputs as long as the limits. What the program can show is a case under `cases/`, and calls whose
//! memory is refused are in `refused_memory_tests`.
#![tactic(auto)]

pub mod copies;
#[cfg(test)]
mod rt11;
#[cfg(test)]
mod texts;
