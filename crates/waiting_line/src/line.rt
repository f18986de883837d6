ghost use Rattle.std.specs.Prelude.{◌≤◌, length};

/// A line that keeps its elements, in order, at the front of memory that someone else owns.
#[derive(Drop)]
pub struct WaitingLine<'m, T> {
    places: &'m mut [T],
    used: usize,
    ghost within: { used ≤ length places.now },
}

pub mod calls;
