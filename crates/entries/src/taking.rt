// From the numbers of the calls for C to a kind and a release: numbers that the types themselves need not know, as in giving.rt.
ghost use Rattle.std.specs.Prelude.{◌≡◌};
ghost use Rattle.entries.specs.Entries.{kind_from, release_from};

use table::{Kind, Release};

// The kind of a number, if there is such a kind.
pub fn kind_from(number: u32) -> Option<Kind>
    ensures { result ≡ kind_from number }
{
    match number {
        1 => Some(Kind::Deferrable),
        2 => Some(Kind::Periodic),
        _ => None,
    }
}

// The release of three numbers, if there is such a kind of release. The period of `once` is not looked at.
pub fn release_from(kind: u32, first: u32, period: u32) -> Option<Release>
    ensures { result ≡ release_from kind first period }
{
    match kind {
        1 => Some(Release::Once(first)),
        2 => Some(Release::Every(first, period)),
        _ => None,
    }
}
