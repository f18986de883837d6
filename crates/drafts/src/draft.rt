ghost use Rattle.std.specs.Prelude.{◌≡◌, ◌≤◌, length};

mod writing;

/// A line that is being written, of at most `N` bytes.
#[derive(Clone, Copy)]
pub struct Draft<const N: usize> {
    bytes: [u8; N],
    len: usize,
    ghost within: { len ≤ N },
    ghost whole: { length bytes ≡ N },
}
