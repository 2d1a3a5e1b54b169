//! Tests of RT-11 volumes: made and verified on devices that fail, and calls on their files, whose directories fill and are split.
//!
//! A test is mostly a table of calls, their answers and the lines of the list behind each ([`calls`]). What the program can show is a
//! case under `cases/`, and calls whose memory is refused are in `refused_memory_tests`.

#[cfg(test)]
mod calls;
#[cfg(test)]
mod files;
#[cfg(test)]
mod segments;
#[cfg(test)]
mod transfers;
#[cfg(test)]
mod volumes;
