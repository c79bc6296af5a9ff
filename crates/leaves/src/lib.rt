// The leaves of reading: scans by blocks and by words, bytes, digits, name and tag bytes and their runs, whole texts, parts and views. Every public
// function answers for every input.
#![tactic(auto)]

pub mod blocks;
pub mod bytes;
pub mod digits;
pub mod names;
pub mod puts;
pub mod runs;
pub mod texts;
pub mod views;
pub mod words;
