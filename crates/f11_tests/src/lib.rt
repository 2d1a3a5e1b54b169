//! Tests of what stands below the commands on Files-11 volumes: the structures of a disk, volumes as wholes, and the file processor.
//!
//! They are of calls and requests that no command reaches, or that only a device reaches that stops, fails or lies. What the program can
//! show is a case under `cases/`; calls and requests whose memory is refused are in `refused_memory_tests`, and so are devices themselves,
//! since they take memory.
#![tactic(auto)]

#[cfg(test)]
mod requests;
#[cfg(test)]
mod structures;
#[cfg(test)]
mod volumes;
