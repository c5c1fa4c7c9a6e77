//! Bytes as they were, by their pages of 4096 bytes, each kept before its first change.
//!
//! `touch` keeps the pages that are about to change; `SavedPages` is seen as what was kept of each page.
//! With the bytes that are there now it gives the old ones: `before`. Room for that many pages is taken at
//! once, so that neither a change nor what follows it takes memory.

mod pages;
mod touching;

pub use pages::SavedPages;
pub use touching::touch;
