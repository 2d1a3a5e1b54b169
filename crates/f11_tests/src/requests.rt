//! Tests of the file processor: requests of several tasks at one volume, and what is answered once a transfer has failed.
//!
//! A test is mostly a table of requests and their answers ([`asks`]).

mod asks;
mod directories;
mod failures;
mod lists;
mod orders;
mod refusals;
mod runs;
mod steps;
mod windows;
