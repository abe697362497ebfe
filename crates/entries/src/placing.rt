// Rows one behind the other in an array.
ghost use Rattle.std.specs.Prelude.{◌≡◌, ◌+◌, ◌≤◌, length};
ghost use Rattle.std.proofs.lemmas.List.Edits.{sets};

// Writes a row to an array, from a place on.
pub fn put_row(row: &[u32], out: &mut [u32], at: usize)
    requires { at + length row.now ≤ length out.old }
    ensures { out.new ≡ sets out.old at row.now }
{
    out[at..at + row.len()].copy_from_slice(row);
}
