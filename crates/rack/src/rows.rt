// The rows of 16 bytes that answers are made of.
ghost use Rattle.std.specs.Prelude.{◌+◌, ◌≤◌, ◌++◌, length};
ghost use Rattle.fields.specs.Fields.{bytes_of};
ghost use Rattle.lines.specs.Lines.{Put};

// Eight bytes as they are given and a number of eight behind them. A place goes in and the end comes out, as in `lines`,
// whose promise (`Put`) this is.
pub fn put_row(out: &mut [u8], at: usize, front: [u8; 8], value: u64) -> usize
    requires { at + 16 ≤ length out.old }
    ensures { Put out.old at (front ++ bytes_of 8 value) out.new result }
{
    let mut back = [0u8; 8];
    fields::put(&mut back, 0, value);
    let end = lines::put_word(out, at, &front);
    lines::put_word(out, end, &back)
}
