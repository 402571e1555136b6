// Timeout Interval.
ghost use Rattle.std.specs.Prelude.{◌≡◌, ◌≤◌, length};
ghost use Rattle.octets.specs.Wrote.{Wrote};
ghost use Rattle.layouts.specs.Timeout.{timeout_of, timeout_size, timeout_octets};

use octets::Number;
use units::Seconds;

// Type 2, a key lifetime.
const KEY_LIFETIME: u8 = 2;

// The lifetime that an element's content asks for.
#[tactic(auto, unfolding(crate::specs::Timeout::timeout_of))]
pub fn read(content: &[u8]) -> Option<Seconds>
    ensures { result ≡ timeout_of content.now }
{
    if content.len() != 5 || content[0] != KEY_LIFETIME {
        return None;
    }
    let seconds = u32::read_le(content, 1);
    if seconds == 0 {
        return None;
    }
    Some(Seconds(seconds))
}

// The octets of an element.
pub const LENGTH: usize = 7;

#[tactic(auto, unfolding(crate::specs::Timeout::timeout_octets))]
pub fn put(d: &mut [u8], lifetime: Seconds) -> usize
    requires { timeout_size ≤ length d.old }
    ensures { Wrote (timeout_octets lifetime) result d.old d.new }
{
    let head = octets::copy_in(d, &[56, 5, KEY_LIFETIME]);
    head + lifetime.0.put_le(&mut d[head..])
}
