//! Where a ring ends and begins in the cells that it lies in.
ghost use Rattle.std.specs.Prelude.{◌≡◌, ◌<◌, ◌≤◌};
ghost use Rattle.channels.specs.Ring.{end_of, first_of};

// The cell after the last element of a ring.
pub(crate) fn end_of(start: usize, len: usize, cap: usize) -> usize
    requires start { start ≤ cap }
    requires len { len < cap }
    ensures at { result ≡ end_of start len cap }
    ensures within { result < cap }
{
    let gap = cap - start;
    if len < gap { start + len } else { len - gap }
}

// The cell of the first element of a ring.
pub(crate) fn first_of(start: usize, cap: usize) -> usize
    requires start { start ≤ cap }
    requires some { 0 < cap }
    ensures at { result ≡ first_of start cap }
    ensures within { result < cap }
{
    if start < cap { start } else { 0 }
}
