//! Tests of copies between a Files-11 volume and an RT-11 volume whose transfers fail, each in turn, and what two copies
//! in a row promise.

#[cfg(test)]
mod from_rt;
pub mod round;
#[cfg(test)]
mod to_rt;
#[cfg(test)]
pub mod volumes;
