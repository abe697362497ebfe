// Bytes put one behind the other into a lent buffer. What the buffer has no room for is counted and not written.
#![tactic(auto)]

ghost use Rattle.std.specs.Prelude.{◌≡◌, ◌+◌, ◌≤◌, [], ◌∷◌, ◌++◌, length};
ghost use Rattle.putting.specs.Pages.{Adds};
ghost use Rattle.putting.specs.Decimal.{decimal, field, signed};

// A lent buffer, and how many bytes are put at its front. Each call asks that they are 1,000,000 at the most, so that the count fits: a bound in the
// type would be asked for at each put all the same.
// Numbers are put by `put_number`, not by `write!` over an impl of `fmt::Write`: what `write!` leaves on the page is promised on Ok alone, and since
// `write_str` asks nothing of the page, that it answers Ok stayed open.
#[derive(Drop)]
pub struct Page<'a> {
    pub bytes: &'a mut [u8],
    pub count: usize,
}

impl<'a> Page<'a> {
    // A page with no byte yet.
    pub fn new(bytes: &'a mut [u8]) -> Page<'a>
        ensures same_buffer { result.bytes.ghost_name ≡ bytes.entry.ghost_name }
        ensures now { result.bytes.now ≡ bytes.old }
        ensures count { result.count ≡ 0 }
    {
        Page { bytes, count: 0 }
    }

    // Puts one byte.
    pub fn put_byte(&mut self, byte: u8)
        requires { self.old.count + 1 ≤ 1000000 }
        ensures { Adds self.old self.new (byte ∷ []) }
    {
        if self.count < self.bytes.len() {
            self.bytes[self.count] = byte;
        }
        self.count += 1;
    }

    // Puts the bytes of a word.
    pub fn put_word(&mut self, word: &[u8])
        requires { self.old.count + length word.now ≤ 1000000 }
        ensures { Adds self.old self.new word.now }
    {
        for byte in word {
            self.put_byte(*byte);
        }
    }

    // Puts a number in decimal digits.
    pub fn put_number(&mut self, value: u32)
        requires { self.old.count + 10 ≤ 1000000 }
        ensures adds { Adds self.old self.new (decimal value) }
        ensures most { self.new.count ≤ self.old.count + 10 }
    {
        if 10 <= value {
            self.put_number(value / 10);
        }
        self.put_byte(b'0' + ((value % 10) as u8));
    }

    // Puts a tab and a number.
    pub fn put_field(&mut self, value: u32)
        requires { self.old.count + 11 ≤ 1000000 }
        ensures adds { Adds self.old self.new (field value) }
        ensures most { self.new.count ≤ self.old.count + 11 }
    {
        self.put_byte(b'\t');
        self.put_number(value);
    }

    // Puts a word, a tab and a number.
    pub fn put_labelled(&mut self, word: &[u8], value: u32)
        requires { self.old.count + (length word.now + 11) ≤ 1000000 }
        ensures adds { Adds self.old self.new (word.now ++ field value) }
        ensures most { self.new.count ≤ self.old.count + (length word.now + 11) }
    {
        self.put_word(word);
        self.put_field(value);
    }

    // Puts a tab and a margin, with its sign where it is below zero.
    pub fn put_margin(&mut self, margin: i32)
        requires { self.old.count + 12 ≤ 1000000 }
        ensures adds { Adds self.old self.new (signed margin) }
        ensures most { self.new.count ≤ self.old.count + 12 }
    {
        let ticks = margin.unsigned_abs();
        if margin < 0 {
            self.put_word(b"\t-");
            self.put_number(ticks);
        } else {
            self.put_field(ticks);
        }
    }
}

// How many digits a number has.
pub fn number_length(value: u32) -> usize
    ensures { (result ≡ length (decimal value)) × (result ≤ 10) }
{
    let mut left = value;
    let mut digits = 1;
    while 10 <= left {
        left /= 10;
        digits += 1;
    }
    digits
}
