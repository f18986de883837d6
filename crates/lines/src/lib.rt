// The grammar of every line: `key=value` fields with one space between, ended by a newline.
// A line's keys are a type of its own, so that this crate knows of no particular line.

#![tactic(auto)]

pub mod fault;
pub mod number;
pub mod reader;
pub mod token;

pub use fault::{Fault, Keyed, LineFault, Under};
pub use number::{NumberCause, NumberFault, Numeral, numeral_at};
pub use reader::Reader;
pub use token::Token;
