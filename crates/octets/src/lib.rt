// Strings of octets: numbers low octet first, comparing, copying, zeroing.
//
// A writer is lent the part that begins where its octets go, and tells how many it wrote (`Wrote`).
#![tactic(auto)]

ghost use Rattle.std.specs.Prelude.{◌≡◌, ℕ, ◌+◌, ◌≤◌, length, replicate};
ghost use Rattle.octets.specs.Numbers.{le, octets};
ghost use Rattle.octets.specs.Equality.{same_octets};
ghost use Rattle.octets.specs.Wrote.{Wrote};

// A number that stands in octets, as many as its type has.
pub trait Number {
    ghost width: { ℕ };

    ghost value: { Self → ℕ };

    // The number in the octets of s from `at` on.
    fn read_le(s: &[u8], at: usize) -> Self
        requires { at + width ≤ length s.now }
        ensures { value result ≡ le width s.now at };

    // Its octets at the front of d.
    fn put_le(self, d: &mut [u8]) -> usize
        requires { width ≤ length d.old }
        ensures { Wrote (octets width (value self)) result d.old d.new };
}

impl Number for u16 {
    ghost width = { 2 };

    ghost value = { λ n. n };

    #[tactic(auto, unfolding(crate::specs::Numbers::le))]
    fn read_le(s: &[u8], at: usize) -> u16 {
        u16::from_le_bytes([s[at], s[at + 1]])
    }

    #[tactic(auto, unfolding(crate::specs::Numbers::octets))]
    fn put_le(self, d: &mut [u8]) -> usize {
        copy_in(d, &u16::to_le_bytes(self))
    }
}

impl Number for u32 {
    ghost width = { 4 };

    ghost value = { λ n. n };

    #[tactic(auto, unfolding(crate::specs::Numbers::le))]
    fn read_le(s: &[u8], at: usize) -> u32 {
        u32::from_le_bytes(s[at..at + 4].try_into().unwrap())
    }

    #[tactic(auto, unfolding(crate::specs::Numbers::octets))]
    fn put_le(self, d: &mut [u8]) -> usize {
        copy_in(d, &u32::to_le_bytes(self))
    }
}

impl Number for u64 {
    ghost width = { 8 };

    ghost value = { λ n. n };

    #[tactic(auto, unfolding(crate::specs::Numbers::le))]
    fn read_le(s: &[u8], at: usize) -> u64 {
        u64::from_le_bytes(s[at..at + 8].try_into().unwrap())
    }

    #[tactic(auto, unfolding(crate::specs::Numbers::octets))]
    fn put_le(self, d: &mut [u8]) -> usize {
        copy_in(d, &u64::to_le_bytes(self))
    }
}

// Whether a and b, of any lengths, are the same octets.
pub fn same(a: &[u8], b: &[u8]) -> bool
    ensures { result ≡ same_octets a.now b.now }
{
    a == b
}

// Copies src to the front of d: octet by octet, since the library's copy calls memmove, and the archive may call memcpy and memset alone.
pub fn copy_in(d: &mut [u8], src: &[u8]) -> usize
    requires { length src.now ≤ length d.old }
    ensures { Wrote src.now result d.old d.new }
{
    for i in 0..src.len() {
        d[i] = src[i];
    }
    src.len()
}

// Zeroes the first n octets of d.
pub fn zero(d: &mut [u8], n: usize) -> usize
    requires { n ≤ length d.old }
    ensures { Wrote (replicate n 0) result d.old d.new }
{
    d[..n].fill(0);
    n
}
