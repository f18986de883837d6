// The destination side: its records, its line facts, its settings, and its rules (specs/).

#![tactic(auto)]

pub mod forwarding;
pub mod line;
pub mod record;
pub mod settings;

pub use forwarding::Forwarding;
pub use line::LineFacts;
pub use record::{BRecord, BState};
pub use settings::{BSettings, examine};
