// Little-endian numbers in a lent slice of bytes, and parts that hold one byte throughout.
#![tactic(auto)]

ghost use Rattle.std.specs.Prelude.{◌≡◌, ℕ, ◌+◌, ◌≤◌, length, replicate};
ghost use Rattle.fields.specs.Fields.{value_of, bytes_of, read_at, put_at, all_are};

// An unsigned number of some width.
pub trait Number: Copy {
    // How many bytes it has.
    ghost WIDTH: { ℕ };

    const WIDTH: usize;

    // What it counts.
    ghost count: { Self → ℕ };

    fn from_bytes(bytes: &[u8]) -> Self
        requires { length bytes.now ≡ WIDTH }
        ensures { count result ≡ value_of bytes.now };

    fn put_bytes(self, part: &mut [u8])
        requires { length part.old ≡ WIDTH }
        ensures { part.new ≡ bytes_of WIDTH (count self) };

    // Two that count the same are the same.
    ghost apart: { (x y : Self) → count x ≡ count y → x ≡ y };
}

impl Number for u16 {
    ghost WIDTH = { 2 };

    ghost count = { λ x. x };

    ghost apart = { λ x y e. e };

    const WIDTH: usize = 2;

    fn from_bytes(bytes: &[u8]) -> u16 {
        u16::from_le_bytes(bytes.try_into().unwrap())
    }

    fn put_bytes(self, part: &mut [u8]) {
        part.copy_from_slice(&u16::to_le_bytes(self));
    }
}

impl Number for u32 {
    ghost WIDTH = { 4 };

    ghost count = { λ x. x };

    ghost apart = { λ x y e. e };

    const WIDTH: usize = 4;

    fn from_bytes(bytes: &[u8]) -> u32 {
        u32::from_le_bytes(bytes.try_into().unwrap())
    }

    fn put_bytes(self, part: &mut [u8]) {
        part.copy_from_slice(&u32::to_le_bytes(self));
    }
}

impl Number for u64 {
    ghost WIDTH = { 8 };

    ghost count = { λ x. x };

    ghost apart = { λ x y e. e };

    const WIDTH: usize = 8;

    fn from_bytes(bytes: &[u8]) -> u64 {
        u64::from_le_bytes(bytes.try_into().unwrap())
    }

    fn put_bytes(self, part: &mut [u8]) {
        part.copy_from_slice(&u64::to_le_bytes(self));
    }
}

// The number that stands at a place.
#[tactic(auto, unfolding(crate::specs::Fields::read_at))]
pub fn read<T: Number>(s: &[u8], at: usize) -> T
    requires { at + T.WIDTH ≤ length s.now }
    ensures { T.count result ≡ read_at T.WIDTH s.now at }
{
    T::from_bytes(&s[at..at + T::WIDTH])
}

// Puts a number at a place.
#[tactic(auto, unfolding(crate::specs::Fields::put_at))]
pub fn put<T: Number>(s: &mut [u8], at: usize, value: T)
    requires { at + T.WIDTH ≤ length s.old }
    ensures { s.new ≡ put_at T.WIDTH s.old at (T.count value) }
{
    value.put_bytes(&mut s[at..at + T::WIDTH]);
}

// Whether every byte of the part is b.
#[tactic(auto, unfolding(crate::specs::Fields::all_are))]
pub fn all_are(part: &[u8], b: u8) -> bool
    ensures { result ≡ all_are b part.now }
{
    part.iter().all(|x| *x == b)
}

// Fills the part with b, whatever stood there.
pub fn fill(part: &mut [u8], b: u8)
    ensures { part.new ≡ replicate (length part.old) b }
{
    part.fill(b);
}
