// The messages that the two sides send each other, and their wire line. None exists that breaks its ranges.

#![tactic(auto)]

pub mod kind;
pub mod limits;
pub mod message;
pub mod service;
pub mod values;
pub mod wire;

pub use kind::{Kind, UnknownLetter};
pub use limits::Limits;
pub use message::Message;
pub use service::Service;
pub use values::Values;
pub use wire::key::Key;
pub use wire::parts::{Parts, take_apart};
pub use wire::read::read;
pub use wire::unread::Unread;
pub use wire::write::{LONGEST, write};
