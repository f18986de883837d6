// A wire with its law. This file cites nothing that names `Wire`.
ghost use Rattle.std.specs.Prelude.{◌≡◌, ◌/◌, ◌≤◌, length};
ghost use Rattle.waiting_line.specs.Lines.{items, capacity};
ghost use Rattle.channels.specs.Lined.{lines_of, messages_in};

use waiting_line::WaitingLine;

/// A channel whose messages stand as their lines, one after another, in bytes that someone else owns.
#[derive(Drop)]
pub struct Wire<'m> {
    bytes: WaitingLine<'m, u8>,
    count: usize,
    ghost lines: { items bytes ≡ lines_of (messages_in count (items bytes)) },
    ghost counted: { length (messages_in count (items bytes)) ≡ count },
    ghost fits: { count ≤ capacity bytes / 46 },
}

pub mod calls;
