ghost use Rattle.std.specs.Prelude.{◌≡◌, true, false, length};
ghost use Rattle.waiting_line.specs.Lines.{capacity};
ghost use Rattle.a_side.specs.Ranges.{a_in_range};

use a_side::{ARecord, ASettings};
use waiting_line::WaitingLine;

/// The originating side. One that was made of what is out of range keeps it as it was given.
#[derive(Drop)]
pub struct ASide<'m> {
    side: Result<Fit<'m>, Unfit<'m>>,
}

/// A side at work: its settings, the next transaction number, which users' lines are busy, and its records.
#[derive(Drop)]
struct Fit<'m> {
    settings: ASettings,
    // none when all are given out
    next: Option<u32>,
    busy: [bool; 64],
    records: WaitingLine<'m, ARecord>,
    ghost in_range: { a_in_range settings (capacity records) ≡ true },
}

/// What was out of range.
#[derive(Drop)]
struct Unfit<'m> {
    settings: ASettings,
    memory: &'m mut [ARecord],
    ghost out_of_range: { a_in_range settings (length memory.now) ≡ false },
}

mod acts;
pub mod calls;
mod changes;
mod decides;
mod receives;
mod resumes;
mod rows;
mod users;
