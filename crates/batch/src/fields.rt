// Reading a line's fields, one after the other: decimal numbers that are parted by single spaces.
ghost use Rattle.std.specs.Prelude.{◌≡◌, ◌≢◌, ◌≤◌, ◌↔◌, ℕ, List, ◌∷◌, [], IfSome, Some, None, take, drop, length, get_or};
ghost use Rattle.std.specs.Char.{is_ascii_digit};
ghost use Rattle.std.specs.List.{prefix_len};
ghost use Rattle.std.specs.Str.Parse.{digits_value};

// The first number that has more than 32 bits.
const OVER: u64 = 4_294_967_296;

// What is not yet read of a line.
#[derive(Clone, Copy)]
pub struct Fields<'a> {
    pub rest: &'a [u8],
}

impl<'a> Fields<'a> {
    // All fields of a line.
    pub fn of(line: &'a [u8]) -> Self
        ensures { result.rest.now ≡ line.now }
    {
        Fields { rest: line }
    }

    // Reads the number whose digits come next, if it has 32 bits.
    // One walk: `str::parse` goes over the digits three times.
    #[tactic(auto, using(crate::proofs::Digits::digits))]
    pub fn number(&mut self) -> Option<u32>
        ensures behind { self.new.rest.now ≡ drop (prefix_len is_ascii_digit self.old.rest.now) self.old.rest.now }
        ensures read { IfSome result (λ number. number ≡ digits_value 10 (take (prefix_len is_ascii_digit self.old.rest.now) self.old.rest.now)) }
    {
        let all = self.rest.len();
        let mut value: u64 = 0;
        let mut ahead = self.rest;
        while let [digit, behind @ ..] = ahead {
            if !digit.is_ascii_digit() {
                break;
            }
            value = (10 * value + u64::from(*digit - b'0')).min(OVER);
            ahead = behind;
        }
        self.rest = ahead;
        if ahead.len() == all {
            return None;
        }
        u32::try_from(value).ok()
    }

    // Reads the space that comes next.
    pub fn space(&mut self) -> Option<()>
        ensures read { IfSome result (λ u. self.old.rest.now ≡ 32 ∷ self.new.rest.now) }
        ensures none { result ≡ None → (rest : List ℕ) → self.old.rest.now ≢ 32 ∷ rest }
    {
        self.rest = self.rest.strip_prefix(b" ")?;
        Some(())
    }

    // Reads a space and the number behind it.
    pub fn next_number(&mut self) -> Option<u32>
        ensures parted { IfSome result (λ number. get_or self.old.rest.now 0 0 ≡ 32) }
        ensures behind { (rest : List ℕ) → self.old.rest.now ≡ 32 ∷ rest → self.new.rest.now ≡ drop (prefix_len is_ascii_digit rest) rest }
        ensures read { (rest : List ℕ) → self.old.rest.now ≡ 32 ∷ rest → IfSome result (λ number. number ≡ digits_value 10 (take (prefix_len is_ascii_digit rest) rest)) }
    {
        self.space()?;
        self.number()
    }

    // Reads a space and the number behind it, if it is not above a limit.
    pub fn number_up_to(&mut self, most: u32) -> Option<u32>
        ensures most { IfSome result (λ number. number ≤ most) }
        ensures parted { IfSome result (λ number. get_or self.old.rest.now 0 0 ≡ 32) }
        ensures behind { (rest : List ℕ) → self.old.rest.now ≡ 32 ∷ rest → self.new.rest.now ≡ drop (prefix_len is_ascii_digit rest) rest }
        ensures read { (rest : List ℕ) → self.old.rest.now ≡ 32 ∷ rest → IfSome result (λ number. number ≡ digits_value 10 (take (prefix_len is_ascii_digit rest) rest)) }
    {
        self.next_number().filter(|number| *number <= most)
    }

    // Reads the line's end.
    pub fn end(self) -> Option<()>
        ensures at_end { (result ≡ Some tt) ↔ (self.entry.rest.now ≡ 10 ∷ []) }
    {
        (self.rest == b"\n".as_slice()).then_some(())
    }
}
