// The ranges that the rules use.
ghost use Rattle.std.specs.Prelude.{◌≡◌};
ghost use Rattle.table.specs.Rules.{between, in_ticks};

// Whether a count is 1 to `most`.
pub fn within(n: usize, most: usize) -> bool
    ensures { result ≡ between 1 most n }
{
    (1..=most).contains(&n)
}

// Whether a number of ticks is 1 to 16,000.
pub fn in_ticks(n: u32) -> bool
    ensures { result ≡ in_ticks n }
{
    (1..=16000).contains(&n)
}
