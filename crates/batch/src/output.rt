// Standard output, written through a room for the bytes that wait.
ghost use Rattle.std.specs.Prelude.{◌≡◌, []};

use crate::write;
use arrayvec::ArrayVec;
use std::fmt;

// How many bytes wait at most.
const ROOM: usize = 65536;

// The bytes that wait to be written to standard output. When the room is full they are written at once.
#[derive(Drop)]
pub struct Output {
    waiting: ArrayVec<u8, ROOM>,
}

impl Output {
    // Nothing waits.
    pub fn new() -> Self
        ensures { result.waiting.items ≡ [] }
    {
        Output {
            waiting: ArrayVec::new(),
        }
    }

    // Writes the bytes that wait.
    pub fn flush(&mut self)
        ensures { self.new.waiting.items ≡ [] }
    {
        write(&self.waiting);
        self.waiting.clear();
    }

    // Puts one byte.
    pub fn put_byte(&mut self, byte: u8) {
        if self.waiting.is_full() {
            self.flush();
        }
        self.waiting.push(byte);
    }

    // Puts bytes as they are: all at once where there is room for them, as they would wait one by one.
    pub fn put_bytes(&mut self, bytes: &[u8]) {
        if self.waiting.try_extend_from_slice(bytes).is_err() {
            for byte in bytes {
                self.put_byte(*byte);
            }
        }
    }
}

impl fmt::Write for Output {
    // Byte by byte, since what `write!` puts is short.
    fn write_str(&mut self, text: &str) -> fmt::Result {
        for byte in text.as_bytes() {
            self.put_byte(*byte);
        }
        Ok(())
    }
}
