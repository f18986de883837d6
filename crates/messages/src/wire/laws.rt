ghost use Rattle.messages.specs.Cases.{LinesCome};
ghost use Rattle.messages.specs.Trip.{RoundTrip};

/// Each lawful message has exactly one line, which reads as that message, and whatever reads is such a line.
#[tactic(auto, using(crate::proofs::Trip::trip))]
pub fn round_trip()
    ensures { RoundTrip }
{}

/// Two dozen lines, good and bad, and what each comes to.
#[tactic(auto, unfolding(lines::specs::Readings::text_at, lines::specs::Readings::letter_at, lines::specs::Readings::number_at, lines::specs::Readings::field_at, lines::specs::Readings::end_at, crate::specs::Parts::kind_at))]
pub fn lines_come()
    ensures { LinesCome }
{}
