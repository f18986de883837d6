ghost use Rattle.std.specs.Prelude.{◌≡◌, true, false, length};
ghost use Rattle.waiting_line.specs.Lines.{capacity};
ghost use Rattle.b_side.specs.Ranges.{b_in_range};

use b_side::{BRecord, BSettings, LineFacts};
use waiting_line::WaitingLine;

/// The destination side. One that was made of what is out of range keeps it as it was given.
#[derive(Drop)]
pub struct BSide<'m> {
    side: Result<Fit<'m>, Unfit<'m>>,
}

/// A side at work: its settings, the records and the facts of its lines, both in given memory.
#[derive(Drop)]
struct Fit<'m> {
    settings: BSettings,
    records: WaitingLine<'m, BRecord>,
    lines: &'m mut [LineFacts],
    ghost in_range: { b_in_range settings (capacity records) (length lines.now) ≡ true },
}

/// What was out of range.
#[derive(Drop)]
struct Unfit<'m> {
    settings: BSettings,
    memory: &'m mut [BRecord],
    facts: &'m mut [LineFacts],
    ghost out_of_range: { b_in_range settings (length memory.now) (length facts.now) ≡ false },
}

pub mod calls;
mod changes;
mod decides;
mod expires;
mod guards;
mod receives;
mod rows;
