//! Tests of texts: Radix-50 and file names, rights and refusals, the lines of commands, the script language, and text records.
//!
//! They are of what no command shows, or shows only in part: readers and writers that are slow or full, devices that fail under
//! commands, and inputs as long as the limits. What the program can show is a case under `cases/`.

#[cfg(test)]
mod actions;
#[cfg(test)]
mod counting;
#[cfg(test)]
mod failing;
#[cfg(test)]
mod faults;
#[cfg(test)]
mod lines;
#[cfg(test)]
mod longest;
#[cfg(test)]
mod names;
#[cfg(test)]
mod records;
#[cfg(test)]
mod requests;
#[cfg(test)]
mod script;
#[cfg(test)]
mod serving;
