// The originating side: its records, its settings, and its rules (specs/).

#![tactic(auto)]

ghost use Rattle.a_side.specs.Tidy.{FiveSuffice};

pub mod record;
pub mod settings;

pub use record::{ARecord, AState};
pub use settings::{ASettings, examine};

/// From a tidy side every accepted call leaves a tidy side and sends at most five messages.
pub fn five_suffice()
    ensures { FiveSuffice }
{}
