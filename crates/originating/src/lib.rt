// The originating side at work: its calls, each equal to its rule. It knows the channel toward B by its meaning only.

#![tactic(auto)]

mod looks;
pub mod side;

pub use side::ASide;
