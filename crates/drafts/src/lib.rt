// A line that is being written into a fixed number of bytes.

#![tactic(auto)]

pub mod draft;

pub use draft::Draft;
