// What a call tells its caller: an answer with its values, or a denial by its number.

#![tactic(auto)]

pub mod answer;
pub mod cause;
pub mod denial;
pub mod range;

pub use answer::Answer;
pub use cause::Cause;
pub use denial::Denial;
pub use range::{is_limited, is_placed, is_sized, is_switched, is_timed, is_within};
