// What can become of the records, by the words of the rules.
ghost use Rattle.std.specs.Prelude.{◌≡◌};
ghost use Rattle.answers.specs.declared.answer.Answer.TheVariants.{Ended};
ghost use Rattle.tables.specs.Tables.{replaced, without};
ghost use Rattle.a_side.specs.Rules.{a_tn, with_records};
ghost use Rattle.originating.specs.Calls.{fit_of, working, Became};

use crate::side::Fit;
use a_side::ARecord;
use answers::{Answer, Cause};

impl Fit<'_> {
    // Puts a record in the place of the one of its transaction.
    pub(super) fn update(&mut self, request: ARecord)
        ensures { Became (working self.old) (with_records (fit_of self.old) (replaced a_tn request (fit_of self.old).records)) (working self.new) }
    {
        tables::update(&mut self.records, request);
    }

    // Ends the record of a transaction.
    pub(super) fn end(&mut self, tn: u32, cause: Cause) -> Answer
        ensures answer { result ≡ Ended tn cause }
        ensures records { Became (working self.old) (with_records (fit_of self.old) (without a_tn tn (fit_of self.old).records)) (working self.new) }
    {
        tables::remove(&mut self.records, tn);
        Answer::Ended { tn, cause }
    }
}
