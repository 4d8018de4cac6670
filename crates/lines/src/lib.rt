// The lines that the checking program prints, put into a lent buffer. A place goes in and the end comes out of each
// function, as the promises of them all (`Put`) have it.
#![tactic(auto)]

ghost use Rattle.std.specs.Prelude.{◌+◌, ◌*◌, ◌%◌, ◌≤◌, ◌<◌, [], ◌∷◌, length};
ghost use Rattle.lines.specs.Lines.{Put, digit, decimal, numbered, line_of};

// Puts the last digit of a number at a place, and says where it ends.
fn put_digit(out: &mut [u8], at: usize, value: u64) -> usize
    requires { at < length out.old }
    ensures { Put out.old at (digit (value % 10) ∷ []) out.new result }
{
    out[at] = 48 + (value % 10) as u8;
    at + 1
}

// Puts the decimal digits of a number at a place, and says where they end. std prints numbers through io::Write alone,
// whose answer may be an error, and which no library crate here stands on.
pub fn put_decimal(out: &mut [u8], at: usize, value: u64) -> usize
    requires { at + 20 ≤ length out.old }
    ensures { Put out.old at (decimal value) out.new result }
{
    if value < 10 {
        return put_digit(out, at, value);
    }
    let next = put_decimal(out, at, value / 10);
    put_digit(out, next, value)
}

// Puts a word at a place, and says where it ends.
#[tactic(auto, using(crate::proofs::PutLaws::put_whole))]
pub fn put_word(out: &mut [u8], at: usize, word: &[u8]) -> usize
    requires { at + length word.now ≤ length out.old }
    ensures { Put out.old at word.now out.new result }
{
    out[at..at + word.len()].copy_from_slice(word);
    at + word.len()
}

// Puts each number behind a blank.
pub fn put_numbers(out: &mut [u8], at: usize, numbers: &[u64]) -> usize
    requires { at + 21 * length numbers.now ≤ length out.old }
    ensures { Put out.old at (numbered numbers.now) out.new result }
{
    let mut next = at;
    for number in numbers {
        out[next] = 32;
        next = put_decimal(out, next + 1, *number);
    }
    next
}

// Puts a line: a word, the numbers, and the line's end.
pub fn put_line(out: &mut [u8], at: usize, word: &[u8], numbers: &[u64]) -> usize
    requires { at + length word.now + 21 * length numbers.now + 1 ≤ length out.old }
    ensures { Put out.old at (line_of word.now numbers.now) out.new result }
{
    let behind_word = put_word(out, at, word);
    let end = put_numbers(out, behind_word, numbers);
    out[end] = 10;
    end + 1
}
