// Euclid's rule.
ghost use Rattle.std.specs.Prelude.{◌≤◌, ◌<◌};
ghost use Rattle.table.specs.Euclid.{IsGcd, IsLcm};

// The greatest common divisor: the second number falls.
#[tactic(auto, using(crate::proofs::Divisors::gcd_rule))]
pub fn gcd(a: u32, b: u32) -> u32
    ensures { IsGcd a b result }
{
    if b == 0 { a } else { gcd(b, a % b) }
}

// The least common multiple of two numbers from 1 to 16,000.
#[tactic(auto, using(crate::proofs::Divisors::g_some, crate::proofs::Divisors::lcm_is))]
pub fn lcm(a: u32, b: u32) -> u32
    requires { (0 < a) × (a ≤ 16000) × (0 < b) × (b ≤ 16000) }
    ensures { IsLcm a b result }
{
    a / gcd(a, b) * b
}
