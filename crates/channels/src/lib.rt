// One-way channels of messages, by their meaning and in two makes. They know nothing of who uses them.

#![tactic(auto)]

pub mod backplane;
pub mod carriage;
pub mod channel;
pub mod posting;
pub mod room;
pub mod wire;

pub use backplane::Backplane;
pub use carriage::carry;
pub use channel::Channel;
pub use posting::post;
pub use room::{check_room, check_sized};
pub use wire::Wire;
