ghost use Rattle.std.specs.Prelude.{◌≤◌, length};

mod reading;

/// A place in a line, up to which it has been read.
#[derive(Clone, Copy, Debug, PartialEq, Eq)]
pub struct Reader<'a> {
    line: &'a [u8],
    at: usize,
    ghost within: { at ≤ length line.now },
}
