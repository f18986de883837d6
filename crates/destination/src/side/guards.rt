// The guards T8 of all lines, in one pass over the records and one over the lines.
ghost use Rattle.std.specs.Prelude.{◌≡◌, ℕ, ◌-◌, ◌<◌, false, not, ◌&&◌, if◌then◌else◌, slice_index_or};
ghost use Rattle.waiting_line.specs.Searches.{some};
ghost use Rattle.b_side.specs.Rules.{queued_at, recalling_at, with_guard, watched_line, aged_from, guard_over};
ghost use Rattle.destination.specs.declared.side.Fit.{Fit};
ghost use Rattle.destination.specs.Guards.{Told};
ghost use Rattle.destination.specs.Sides.{fit_of};
ghost use Rattle.destination.specs.Calls.{Lined, settled};

use crate::side::Fit;
use b_side::{BRecord, BState, LineFacts};

/// Which destinations have a Queued record, and which a Recalling one.
#[derive(Clone, Copy)]
struct Notes {
    queued: [bool; 64],
    recalling: [bool; 64],
}

// Takes note of each record's destination.
fn noted(records: &[BRecord]) -> Notes
    ensures queued { (b : ℕ) → b < 64 → slice_index_or result.queued b false ≡ some (queued_at b) records.now }
    ensures recalling { (b : ℕ) → b < 64 → slice_index_or result.recalling b false ≡ some (recalling_at b) records.now }
{
    let mut notes = Notes {
        queued: [false; 64],
        recalling: [false; 64],
    };
    for record in records {
        if record.destination < 64 {
            let place = usize::from(record.destination);
            match record.state {
                BState::Queued => notes.queued[place] = true,
                BState::Recalling => notes.recalling[place] = true,
                BState::Suspended => {}
            }
        }
    }
    notes
}

// Whether T8 runs: the line is free, no record there is Recalling and one is Queued. No test branches, so that many lines
// are judged at once.
fn is_guarded(line: &LineFacts, recalling: bool, queued: bool) -> bool
    ensures { result ≡ (not line.now.busy && not recalling && queued) }
{
    !line.busy & !recalling & queued
}

// A line after a call, by whether its guard ran before and runs after it.
fn watched(line: LineFacts, ran: bool, runs: bool, t8: u16) -> LineFacts
    ensures { result ≡ watched_line t8 ran runs line }
{
    let guard = if !runs {
        0
    } else if ran {
        line.guard
    } else {
        t8
    };
    LineFacts { guard, ..line }
}

// A line after a tick, by whether its guard runs.
fn aged(line: LineFacts, runs: bool) -> LineFacts
    ensures { result ≡ with_guard (line.guard - (if runs then 1 else 0)) line }
{
    let guard = line.guard.saturating_sub(u16::from(runs));
    LineFacts { guard, ..line }
}

impl Fit<'_> {
    // Where T8 runs.
    pub(super) fn guards(&self) -> [bool; 64]
        ensures { Told (fit_of self.now).records (fit_of self.now).lines result }
    {
        let notes = noted(self.records.all());
        let mut runs = [false; 64];
        for (b, line) in self.lines.iter().enumerate() {
            runs[b] = is_guarded(line, notes.recalling[b], notes.queued[b]);
        }
        runs
    }

    // Last in an accepted call: the guards by their rule, where `ran` tells which ran before the call.
    pub(super) fn settle(&mut self, ran: &[bool; 64])
        ensures { (was : Fit) → was.settings ≡ self.old.settings → Told (fit_of was).records (fit_of was).lines ran.now → Lined (settled (fit_of was) (fit_of self.old)) self.old self.new }
    {
        let runs = self.guards();
        let t8 = self.settings.t8 as u16;
        for (b, line) in self.lines.iter_mut().enumerate() {
            *line = watched(*line, ran[b], runs[b], t8);
        }
    }

    // Takes one from each guard that runs.
    pub(super) fn tick_guards(&mut self)
        ensures settings { self.new.settings ≡ self.old.settings }
        ensures records { self.new.records ≡ self.old.records }
        ensures lines { self.new.lines.now ≡ aged_from 0 (fit_of self.old).records (fit_of self.old).lines }
    {
        let runs = self.guards();
        for (b, line) in self.lines.iter_mut().enumerate() {
            *line = aged(*line, runs[b]);
        }
    }

    // The lowest destination whose guard runs and is at 0.
    pub(super) fn first_over(&self) -> Option<usize>
        ensures { result ≡ guard_over 0 (fit_of self.now).records (fit_of self.now).lines }
    {
        let runs = self.guards();
        for (b, line) in self.lines.iter().enumerate() {
            if runs[b] && line.guard == 0 {
                return Some(b);
            }
        }
        None
    }
}
