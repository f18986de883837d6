ghost use Rattle.std.specs.Prelude.{◌≡◌, ◌<◌, Bool, map, length, IfSome};
ghost use Rattle.waiting_line.specs.Searches.{first_where, some};

/// A record with timers.
pub trait Timed {
    ghost ticked: { Self → Self };

    ghost due: { Self → Bool };

    /// Takes one from each of its running timers.
    fn tick(&mut self)
        ensures { self.new ≡ ticked self.old };

    /// Whether a running timer of it is at 0.
    fn is_due(&self) -> bool
        ensures { result ≡ due self.now };
}

/// One tick for each record.
#[tactic(auto, using(std::proofs::lemmas::List::Edits::map_over_more))]
pub fn tick_all<T: Timed>(records: &mut [T])
    ensures { records.new ≡ map T.Timed.ticked records.old }
{
    for record in records.iter_mut() {
        record.tick();
    }
}

/// The place of the first record that is due.
pub fn first_due<T: Timed>(records: &[T]) -> Option<usize>
    ensures place { result ≡ first_where T.Timed.due records.now }
    ensures within { IfSome result (λ i. i < length records.now) }
{
    records.iter().position(|record| record.is_due())
}

/// Whether some record is due.
pub fn any_due<T: Timed>(records: &[T]) -> bool
    ensures { result ≡ some T.Timed.due records.now }
{
    records.iter().any(|record| record.is_due())
}
