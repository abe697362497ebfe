// Texts parted into lines, and lines into fields.
ghost use Rattle.std.specs.Prelude.{◌≡◌, [], length, get_or};
ghost use Rattle.fields.specs.Fields.{split, same_bytes};

// Whether two slices hold the same bytes; `==` itself would want `b"span".as_slice()` on its right.
#[tactic(auto, using(crate::proofs::Library::same_is))]
pub fn same(a: &[u8], b: &[u8]) -> bool
    ensures { result ≡ same_bytes a.now b.now }
{
    a == b
}

// How many fields a line has.
pub fn count(line: &[u8]) -> usize
    ensures { result ≡ length (split 9 line.now) }
{
    line.split(|byte| *byte == b'\t').count()
}

// The field behind `skip` others; an empty one where the line has no more.
pub fn field(line: &[u8], skip: usize) -> &[u8]
    ensures { result.now ≡ get_or (split 9 line.now) skip [] }
{
    line.split(|byte| *byte == b'\t').nth(skip).unwrap_or(&[])
}
