// MIC, as it stands before the chip has computed it.
ghost use Rattle.std.specs.Prelude.{◌+◌, ◌≤◌, ◌<◌, length};
ghost use Rattle.octets.specs.Wrote.{Wrote};
ghost use Rattle.layouts.specs.Mic.{mic_size, mic_octets};

// The octets of an element, beside the MIC.
pub const LENGTH: usize = 2;

// A MIC element of n zeros.
#[tactic(auto, unfolding(crate::specs::Mic::mic_octets))]
pub fn put(d: &mut [u8], n: usize) -> usize
    requires { (n < 256) × (n + mic_size ≤ length d.old) }
    ensures { Wrote (mic_octets n) result d.old d.new }
{
    let head = octets::copy_in(d, &[140, n as u8]);
    head + octets::zero(&mut d[head..], n)
}
