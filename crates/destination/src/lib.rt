// The calls of the destination side. It knows the channels by their meaning only.

#![tactic(auto)]

mod due;
pub mod side;

pub use side::BSide;
