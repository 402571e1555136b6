// Strings of octets of a greatest length, in memory that is set aside for them.
ghost use Rattle.std.specs.Prelude.{◌≡◌, ◌≤◌, length, take, OnOk, OnErr};

use crate::stop::Unfit;

// The first `length` octets are the string.
#[derive(Drop)]
pub struct Buffer<const N: usize> {
    octets: [u8; N],
    length: usize,
    ghost within: { length ≤ N },
}

impl<const N: usize> Buffer<N> {
    pub fn empty() -> Buffer<N> {
        Buffer {
            octets: [0; N],
            length: 0,
        }
    }

    pub fn as_slice(&self) -> &[u8]
        ensures { result.now ≡ take self.now.length self.now.octets }
    {
        &self.octets[..self.length]
    }

    // Takes s in the string's place, if it is no longer than N.
    pub fn set(&mut self, s: &[u8]) -> Result<(), Unfit>
        ensures ok { OnOk result (take self.new.length self.new.octets ≡ s.now) }
        ensures err { OnErr result (self.new ≡ self.old) }
    {
        if s.len() > N {
            return Err(Unfit);
        }
        octets::copy_in(&mut self.octets, s);
        self.length = s.len();
        Ok(())
    }
}
