//! Tests of the structures of a Files-11 disk: the storage bitmap, the index file, headers, their chains, retrieval pointers and
//! directory records. Some are consumers, which do under a contract what a layer above does first.

mod bitmap;
mod chains;
mod directories;
mod headers;
mod index;
mod pointers;
mod readers;
