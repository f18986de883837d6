// The pair of sides with its two channels: its calls, what a run of them tells, and the law over every run (specs/).

#![tactic(auto)]

ghost use Rattle.agreement.specs.Laws.{Law, RunsAgree, RunsFit, CallsAgree};
ghost use Rattle.agreement.specs.Edges.{Edges};

pub mod call;

pub use call::Call;

/// Of every fresh pair, whatever its settings, memory and channels, the two sides agree after every prefix of every run.
pub fn law_holds()
    ensures { Law }
{}

/// The same of a run by the outcomes that its calls told and the pair that it left.
pub fn runs_agree()
    ensures { RunsAgree }
{}

/// A history that leads from a fresh pair to a pair, with one call more, leads to the pair after it and agrees with it.
pub fn calls_agree()
    ensures { CallsAgree }
{}

/// Of every fresh pair, every run keeps the originating side tidy and the channels within their capacities.
pub fn runs_fit()
    ensures { RunsFit }
{}

/// The edge cases of the rules come out as they should.
pub fn edges_hold()
    ensures { Edges }
{}
