// The line writer: one line of a table's text, how many bytes it has, and how it is put at the front of what is lent.
ghost use Rattle.std.specs.Prelude.{◌≡◌, ◌+◌, ◌++◌, ◌≤◌, ℕ, List, length};
ghost use Rattle.putting.specs.Puts.{Put};
ghost use Rattle.putting.specs.Decimal.{decimal, feed};
ghost use Rattle.writing.specs.Text.{kind_word, server_fields, task_fields, span_line, server_line, task_line};
ghost use Rattle.writing.specs.Lengths.{line_length};

use putting::{Page, number_length};
use table::{Kind, Release, Server, Task};

// What has a line in the text: a server or a task.
pub trait Line: Copy {
    // its fields
    ghost fields: { Self → List (List ℕ) };

    // its line
    ghost line: { Self → List ℕ };

    // How many bytes the line has with its line feed: each field, and the byte behind it.
    fn length(self) -> usize
        ensures by_fields { result ≡ line_length (fields self) }
        ensures counted { result ≡ length (line self ++ feed) }
        ensures most { result ≤ 61 };

    // Puts the line, and answers how many bytes it has put.
    fn put(self, out: &mut [u8]) -> usize
        ensures { Put out.old out.new 0 (line self ++ feed) result };
}

// How many bytes a number has with the byte behind it.
pub fn field_length(value: u32) -> usize
    ensures { (result ≡ length (decimal value) + 1) × (result ≤ 11) }
{
    number_length(value) + 1
}

// The word of a server's kind.
fn word(kind: Kind) -> &'static [u8]
    ensures { result.now ≡ kind_word kind }
{
    match kind {
        Kind::Deferrable => b"deferrable",
        Kind::Periodic => b"periodic",
    }
}

// Puts the line of the span.
pub fn put_span(out: &mut [u8], span: u32) -> usize
    ensures { Put out.old out.new 0 (span_line span ++ feed) result }
{
    let mut page = Page::new(out);
    page.put_labelled(b"span", span);
    page.put_byte(b'\n');
    page.count
}

impl Line for Server {
    ghost fields = { server_fields };

    ghost line = { server_line };

    fn length(self) -> usize {
        8 + word(self.kind).len() + field_length(self.capacity) + field_length(self.period)
    }

    fn put(self, out: &mut [u8]) -> usize {
        let mut page = Page::new(out);
        page.put_word(b"server\t");
        page.put_word(word(self.kind));
        page.put_field(self.capacity);
        page.put_field(self.period);
        page.put_byte(b'\n');
        page.count
    }
}

impl Line for Task {
    ghost fields = { task_fields };

    ghost line = { task_line };

    fn length(self) -> usize {
        let shared = field_length(self.server)
            + field_length(self.work)
            + field_length(self.deadline);
        match self.release {
            Release::Once(instant) => 5 + shared + field_length(instant),
            Release::Every(offset, period) => {
                6 + shared + field_length(offset) + field_length(period)
            }
        }
    }

    fn put(self, out: &mut [u8]) -> usize {
        let mut page = Page::new(out);
        match self.release {
            Release::Once(instant) => {
                page.put_labelled(b"once", self.server);
                page.put_field(self.work);
                page.put_field(instant);
            }
            Release::Every(offset, period) => {
                page.put_labelled(b"every", self.server);
                page.put_field(self.work);
                page.put_field(offset);
                page.put_field(period);
            }
        }
        page.put_field(self.deadline);
        page.put_byte(b'\n');
        page.count
    }
}
