// Words and numbers.
ghost use Rattle.std.specs.Prelude.{◌≡◌, true, ◌≤◌, ◌<◌, length};
ghost use Rattle.table.specs.Rules.{all};
ghost use Rattle.fields.specs.Fields.{word_of, is_digit, starts_with_zero, digits_from, field_number};

use crate::Word;
use crate::parting::same;
use refusals::Ground;

// Which of the fixed words a field is, if it is one. A `match` on the bytes leaves a goal open for each byte that may differ.
pub fn word(field: &[u8]) -> Option<Word>
    ensures { result ≡ word_of field.now }
{
    if same(field, b"span") {
        return Some(Word::Span);
    }
    if same(field, b"server") {
        return Some(Word::Server);
    }
    if same(field, b"once") {
        return Some(Word::Once);
    }
    if same(field, b"every") {
        return Some(Word::Every);
    }
    None
}

// Whether every byte is a digit.
fn digits(field: &[u8]) -> bool
    ensures { result ≡ all is_digit field.now }
{
    field.iter().all(u8::is_ascii_digit)
}

// Whether a number starts with a zero that is not all of it.
fn leading_zero(field: &[u8]) -> bool
    requires { 0 < length field.now }
    ensures { result ≡ starts_with_zero field.now }
{
    field[0] == b'0' && 1 < field.len()
}

// The number that up to five digits make.
#[tactic(auto, using(crate::proofs::Bytes::digit_at, crate::proofs::Bytes::digits_turn, crate::proofs::Bytes::digits_end))]
fn value(field: &[u8]) -> u32
    requires { (all is_digit field.now ≡ true) × (length field.now ≤ 5) }
    ensures { result ≡ digits_from 0 field.now }
{
    let mut n: u32 = 0;
    for digit in field {
        n = 10 * n + u32::from(*digit - b'0');
    }
    n
}

// A field that is to be a number.
pub fn number(field: &[u8]) -> Result<u32, Ground>
    ensures { result ≡ field_number field.now }
{
    if field.is_empty() {
        return Err(Ground::Empty);
    }
    if same(field, b"-") {
        return Err(Ground::Dash);
    }
    if !digits(field) {
        return Err(Ground::NoDigit);
    }
    if leading_zero(field) {
        return Err(Ground::LeadingZero);
    }
    if 5 < field.len() {
        return Err(Ground::TooManyDigits);
    }
    Ok(value(field))
}
