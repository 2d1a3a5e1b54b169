//! Tests of calls that take memory, and of devices. Each passes too where one of its allocations is refused, as
//! `rt try --test --fail-alloc N` does: it looks at what is there then, and asks again.
#![tactic(auto)]

#[cfg(test)]
mod actions;
#[cfg(test)]
mod devices;
#[cfg(test)]
mod files;
#[cfg(test)]
mod headers;
#[cfg(test)]
mod index;
#[cfg(test)]
mod names;
#[cfg(test)]
mod putting;
#[cfg(test)]
mod taking_out;
#[cfg(test)]
mod tasks;
#[cfg(test)]
mod volumes;
#[cfg(test)]
mod words;
