// The changes that calls make: one record, or one line.
ghost use Rattle.std.specs.Prelude.{◌≡◌, false, length, nat_le, slice_set};
ghost use Rattle.tables.specs.Tables.{added, became, removed};
ghost use Rattle.b_side.specs.Rules.{line, line_set, stored_as, with_forwarding};
ghost use Rattle.destination.specs.Sides.{fit_of};
ghost use Rattle.destination.specs.Calls.{Changed, Lined};

use crate::side::Fit;
use b_side::{BRecord, Forwarding, LineFacts};

impl Fit<'_> {
    // The first record of a transaction.
    pub(super) fn standing(&self, tn: u32) -> Option<BRecord>
        ensures { result ≡ stored_as tn (fit_of self.now) }
    {
        tables::standing(self.records.all(), tn)
    }

    // Removes the first record of a transaction.
    pub(super) fn remove(&mut self, tn: u32)
        ensures { Changed (removed tn) self.old self.new }
    {
        tables::remove(&mut self.records, tn);
    }

    // Puts a record in the place of the first of its transaction.
    pub(super) fn update(&mut self, request: BRecord)
        ensures { Changed (became request) self.old self.new }
    {
        tables::update(&mut self.records, request);
    }

    // Adds a record last.
    pub(super) fn store(&mut self, request: BRecord)
        requires { nat_le (fit_of self.old).places (length (fit_of self.old).records) ≡ false }
        ensures { Changed (added request) self.old self.new }
    {
        let _ = self.records.put(request);
    }

    // The facts of a destination's line; those of an idle line where it has none.
    pub(super) fn line(&self, destination: u8) -> LineFacts
        ensures { result ≡ line (fit_of self.now) destination }
    {
        self.lines
            .get(usize::from(destination))
            .copied()
            .unwrap_or_default()
    }

    // Sets the facts of a destination's line, if it has one.
    fn set_line(&mut self, destination: u8, facts: LineFacts)
        ensures { Lined (slice_set (fit_of self.old).lines destination facts) self.old self.new }
    {
        let place = usize::from(destination);
        if place < self.lines.len() {
            self.lines[place] = facts;
        }
    }

    // Makes a destination's line busy or free.
    pub(super) fn turn_line(&mut self, destination: u8, busy: bool)
        ensures { Lined (line_set (fit_of self.old) destination busy) self.old self.new }
    {
        let facts = self.line(destination);
        self.set_line(destination, LineFacts { busy, ..facts });
    }

    // Sets the forwarding of a destination.
    pub(super) fn forward_line(&mut self, destination: u8, forwarding: Forwarding)
        ensures { Lined (slice_set (fit_of self.old).lines destination (with_forwarding forwarding (line (fit_of self.old) destination))) self.old self.new }
    {
        let facts = self.line(destination);
        self.set_line(
            destination,
            LineFacts {
                forwarding,
                ..facts
            },
        );
    }
}
