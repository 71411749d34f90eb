// Numbers and letters put into a book, least byte first. All else stays as it was.
ghost use Rattle.std.specs.Prelude.{◌≡◌, ◌+◌, ◌≤◌, length};
ghost use Rattle.encoding.specs.Numbers.{u16_bytes, u32_bytes, u64_bytes, value_bytes};
ghost use Rattle.places.specs.inner.Put.{put};

use values::Value;

// The last 16 bits of a number.
pub fn put_u16(b: &mut [u8], at: usize, n: u32)
    requires { at + 2 ≤ length b.old }
    ensures { b.new ≡ put b.old at (u16_bytes n) }
{
    b[at..at + 2].copy_from_slice(&((n % 65536) as u16).to_le_bytes());
}

// A number of 32 bits.
pub(crate) fn put_u32(b: &mut [u8], at: usize, n: u32)
    requires { at + 4 ≤ length b.old }
    ensures { b.new ≡ put b.old at (u32_bytes n) }
{
    b[at..at + 4].copy_from_slice(&n.to_le_bytes());
}

// A number of 64 bits.
pub(crate) fn put_u64(b: &mut [u8], at: usize, n: u64)
    requires { at + 8 ≤ length b.old }
    ensures { b.new ≡ put b.old at (u64_bytes n) }
{
    b[at..at + 8].copy_from_slice(&n.to_le_bytes());
}

// The number that a value is written as: 0 where it is missing.
fn written(v: Value) -> u32
    ensures { u32_bytes result ≡ value_bytes v }
{
    match v {
        Value::Given(number) => number,
        Value::Missing => 0,
    }
}

// A value: its number, and zeros where it is missing.
pub fn put_value(b: &mut [u8], at: usize, v: Value)
    requires { at + 4 ≤ length b.old }
    ensures { b.new ≡ put b.old at (value_bytes v) }
{
    put_u32(b, at, written(v));
}

// The four letters that open a block.
pub fn put_letters(b: &mut [u8], at: usize, letters: &[u8; 4])
    requires { (at + 4 ≤ length b.old) × (length letters.now ≡ 4) }
    ensures { b.new ≡ put b.old at letters.now }
{
    b[at..at + 4].copy_from_slice(letters);
}
