// The header of a body: all that a refusal has.
ghost use Rattle.std.specs.Prelude.{◌≤◌, length};
ghost use Rattle.octets.specs.Wrote.{Wrote};
ghost use Rattle.writers.specs.Header.{header_size, header_octets};

use octets::Number;

// The octets of a header.
pub const LENGTH: usize = 6;

#[tactic(auto, unfolding(octets::specs::Numbers::octets, crate::specs::Header::header_octets))]
pub fn put(d: &mut [u8], algorithm: u16, transaction: u16, status: u16) -> usize
    requires { header_size ≤ length d.old }
    ensures { Wrote (header_octets algorithm transaction status) result d.old d.new }
{
    let a = algorithm.put_le(d);
    let b = a + transaction.put_le(&mut d[a..]);
    b + status.put_le(&mut d[b..])
}
