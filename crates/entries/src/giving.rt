// From a kind and a release to their numbers: those of the calls for C, which the types themselves need not know.
ghost use Rattle.std.specs.Prelude.{◌≡◌};
ghost use Rattle.entries.specs.Entries.{kind_number, release_row};

use table::{Kind, Release};

// A server's kind as a number.
pub fn kind_number(kind: Kind) -> u32
    ensures { result ≡ kind_number kind }
{
    match kind {
        Kind::Deferrable => 1,
        Kind::Periodic => 2,
    }
}

// A release as three numbers: its kind, the instant or the offset, and the period, 0 where there is none.
pub fn release_row(release: Release) -> [u32; 3]
    ensures { result ≡ release_row release }
{
    match release {
        Release::Once(instant) => [1, instant, 0],
        Release::Every(offset, period) => [2, offset, period],
    }
}
