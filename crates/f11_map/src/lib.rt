//! Retrieval pointers in the map area of a lent header: [`Map`] reads them and [`MapMut`] writes them where they stand.
//! [`in_hand`] has the calls on a block that holds a header, which seal it again.
#![tactic(auto)]

pub mod in_hand;
pub mod laws;
mod map;
mod map_mut;
mod pointer;

pub use f11_header;
pub use f11_header::f11_store;
pub use map::Map;
pub use map_mut::{MapFull, MapMut};
pub use pointer::{POINTER_BLOCKS, run_pointers};
