// From hexadecimal digits to the bytes that they stand for.
ghost use Rattle.std.specs.Prelude.{◌<◌, IfSome};
ghost use Rattle.io.specs.Counts.{IsPrefixLen};

// The value of a lowercase digit.
fn digit(byte: u8) -> Option<u8>
    ensures { IfSome result (λ value. value < 16) }
{
    match byte {
        b'0'..=b'9' => Some(byte - b'0'),
        b'a'..=b'f' => Some(byte - b'a' + 10),
        _ => None,
    }
}

// Puts the bytes that digits stand for, two digits each, up to the line's end, to the front of an array; none where there is another byte, or no room.
pub fn decode(digits: &[u8], bytes: &mut [u8]) -> Option<usize>
    ensures { IfSome result (λ count. IsPrefixLen count bytes.new) }
{
    let digits = digits.strip_suffix(b"\n").unwrap_or(digits);
    if digits.len() % 2 != 0 {
        return None;
    }
    let count = digits.len() / 2;
    for (byte, pair) in bytes
        .get_mut(..count)?
        .iter_mut()
        .zip(digits.chunks_exact(2))
    {
        *byte = digit(pair[0])? * 16 + digit(pair[1])?;
    }
    Some(count)
}
