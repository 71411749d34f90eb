// Little-endian numbers, letters and zero bytes in a part of the book.
ghost use Rattle.std.specs.Prelude.{◌≡◌, ◌+◌, ◌<◌, ◌≤◌, length};
ghost use Rattle.block.specs.Bytes.{u16_at, u32_at, u64_at, opens_with, blank};

// The 16-bit number at a place.
pub fn u16_at(s: &[u8], at: usize) -> u32
    requires { at + 2 ≤ length s.now }
    ensures { (result ≡ u16_at s.now at) × (result < 65536) }
{
    u32::from(u16::from_le_bytes([s[at], s[at + 1]]))
}

// The 32-bit number at a place.
pub fn u32_at(s: &[u8], at: usize) -> u32
    requires { at + 4 ≤ length s.now }
    ensures { (result ≡ u32_at s.now at) × (result < 4294967296) }
{
    u32::from_le_bytes([s[at], s[at + 1], s[at + 2], s[at + 3]])
}

// The 64-bit number at a place.
pub fn u64_at(s: &[u8], at: usize) -> u64
    requires { at + 8 ≤ length s.now }
    ensures { result ≡ u64_at s.now at }
{
    u64::from(u32_at(s, at)) + u64::from(u32_at(s, at + 4)) * 4294967296
}

// Whether the part opens with the four letters.
pub fn opens_with(s: &[u8], letters: &[u8; 4]) -> bool
    requires { 4 ≤ length s.now }
    ensures { result ≡ opens_with s.now letters.now }
{
    [s[0], s[1], s[2], s[3]] == *letters
}

// Whether the n bytes from a place on are all zero: no bit of any of them is set.
pub fn is_blank(s: &[u8], from: usize, n: usize) -> bool
    requires { from + n ≤ length s.now }
    ensures { result ≡ blank s.now from n }
{
    let mut bits: u8 = 0;
    for i in 0..n {
        bits |= s[from + i];
    }
    bits == 0
}
