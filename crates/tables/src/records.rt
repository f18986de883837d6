ghost use Rattle.std.specs.Prelude.{◌≡◌};
ghost use Rattle.tables.specs.Tables.{found, first_by, without, replaced};
ghost use Rattle.waiting_line.specs.Lines.{items, Holds};

use waiting_line::{Record, Timed, WaitingLine, find, first_due};

/// The record of the transaction `tn`.
#[tactic(auto, using(crate::proofs::Dues::at_first, crate::proofs::Dues::none_first))]
pub fn standing<T: Record + Copy>(records: &[T], tn: u32) -> Option<T>
    ensures { result ≡ found T.Record.transaction_of tn records.now }
{
    let place = find(records, tn)?;
    Some(records[place])
}

/// The first record that is due.
#[tactic(auto, using(crate::proofs::Dues::at_first, crate::proofs::Dues::none_first))]
pub fn due<T: Timed + Copy>(records: &[T]) -> Option<T>
    ensures { result ≡ first_by T.Timed.due records.now }
{
    let place = first_due(records)?;
    Some(records[place])
}

/// Puts a record in the place of the one of its transaction.
pub fn update<T: Record + Copy>(records: &mut WaitingLine<'_, T>, entry: T)
    ensures { Holds records.old (replaced T.Record.transaction_of entry (items records.old)) records.new }
{
    if let Some(place) = find(records.all(), entry.transaction()) {
        let _ = records.replace(place, entry);
    }
}

/// Removes the record of the transaction `tn`.
pub fn remove<T: Record + Copy>(records: &mut WaitingLine<'_, T>, tn: u32)
    ensures { Holds records.old (without T.Record.transaction_of tn (items records.old)) records.new }
{
    if let Some(place) = find(records.all(), tn) {
        let _ = records.remove(place);
    }
}
