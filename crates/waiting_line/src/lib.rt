// A line of elements in memory that someone else owns, first come first; the search and the timers of records.

#![tactic(auto)]

pub mod gap;
pub mod line;
pub mod record;
pub mod timed;

pub use gap::close_gap;
pub use line::WaitingLine;
pub use record::{Record, find};
pub use timed::{Timed, any_due, first_due, tick_all};
