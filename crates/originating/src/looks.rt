// What is asked of records and states.
ghost use Rattle.std.specs.Prelude.{◌≡◌, ℕ, ◌<◌, false, slice_index_or};
ghost use Rattle.tables.specs.Tables.{times};
ghost use Rattle.waiting_line.specs.Searches.{some};
ghost use Rattle.a_side.specs.Rules.{recalled_or_calling};
ghost use Rattle.originating.specs.Words.{engages as engaging, same, of_user};

use a_side::{ARecord, AState};
use messages::Service;

// Whether a record in this state makes its user CCBS-busy.
fn engages(state: AState) -> bool
    ensures { result ≡ recalled_or_calling state }
{
    matches!(state, AState::Recalled | AState::Calling)
}

// Whether one of the user's records is Recalled or Calling.
pub(crate) fn is_engaged(records: &[ARecord], user: u8) -> bool
    ensures { result ≡ some (engaging user) records.now }
{
    records
        .iter()
        .any(|request| request.user == user && engages(request.state))
}

// For each user whether one of their records is Recalled or Calling, in one pass.
pub(crate) fn engaged_users(records: &[ARecord]) -> [bool; 256]
    ensures { (u : ℕ) → u < 256 → slice_index_or result u false ≡ some (engaging u) records.now }
{
    let mut engaged = [false; 256];
    for request in records {
        if engages(request.state) {
            engaged[usize::from(request.user)] = true;
        }
    }
    engaged
}

// Whether a record of the user has the same destination and service.
pub(crate) fn has_same(records: &[ARecord], user: u8, destination: u8, service: Service) -> bool
    ensures { result ≡ some (same user destination service) records.now }
{
    records.iter().any(|request| {
        request.user == user
            && request.destination == destination
            && request.service.meant() == service.meant()
    })
}

// How many records the user has.
pub(crate) fn count_of(records: &[ARecord], user: u8) -> usize
    ensures { result ≡ times (of_user user) records.now }
{
    let mut count = 0;
    for request in records {
        count += usize::from(request.user == user);
    }
    count
}
