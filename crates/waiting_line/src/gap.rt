ghost use Rattle.std.specs.Prelude.{◌≡◌};
ghost use Rattle.waiting_line.specs.Gaps.{closed};

/// Moves what stands from `from + gap` up to `end` down to `from`, in one pass; an `end` past the memory means its end.
pub fn close_gap<T: Copy>(memory: &mut [T], from: usize, gap: usize, end: usize)
    ensures { memory.new ≡ closed from gap end memory.old }
{
    let start = from.saturating_add(gap);
    let end = end.min(memory.len());
    if start < end {
        memory.copy_within(start..end, from);
    }
}
