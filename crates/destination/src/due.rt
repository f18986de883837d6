use b_side::BRecord;

/// What expiry handles: a record with a timer at 0, or a destination whose guard is over.
#[derive(Clone, Copy)]
pub enum Due {
    Record(BRecord),
    Guard(usize),
}
