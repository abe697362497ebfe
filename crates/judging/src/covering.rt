// Whether a curve covers a tick.
ghost use Rattle.std.specs.Prelude.{◌≡◌, ltb};
ghost use Rattle.windows.specs.Windows.{cover};

// Whether a curve covers a tick.
pub fn covers(curve: &[u32], tick: u32) -> bool
    ensures { result ≡ ltb 0 (cover curve.now tick) }
{
    let (windows, _) = curve.as_chunks::<2>();
    windows
        .iter()
        .any(|[start, end]| *start <= tick && tick < *end)
}
