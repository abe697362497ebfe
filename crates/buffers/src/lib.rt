// Curves at the front of work buffers.
#![tactic(auto)]

pub mod work;

ghost use Rattle.std.specs.Prelude.{◌≡◌, ◌≤◌, ◌<◌, length, take};
ghost use Rattle.buffers.specs.Parts.{Curve, Drawn, Wrote, with_window};

// Puts a window behind the curve that a buffer's first `count` numbers are, joined to its last window if they touch.
// Buffer and count, not one value of both: a buffer of `Work` outlives the curve at its front, whose count alone is handed on.
pub fn put(out: &mut [u32], count: usize, start: u32, end: u32) -> usize
    requires { Curve out.old count start × (start < end) × (end ≤ 16000) }
    ensures { Drawn out.old out.new result (with_window (take count out.old) start end) }
{
    if 0 < count && out[count - 1] == start {
        out[count - 1] = end;
        return count;
    }
    out[count] = start;
    out[count + 1] = end;
    count + 2
}

// Copies a curve to the front of a buffer. A loop, since `copy_from_slice` asks whoever links the archive for `memmove`.
pub fn copy(curve: &[u32], out: &mut [u32])
    requires { length curve.now ≤ length out.old }
    ensures { Wrote out.old out.new (length curve.now) curve.now }
{
    for i in 0..curve.len() {
        out[i] = curve[i];
    }
}
