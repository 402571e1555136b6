// The second frame.
ghost use Rattle.std.specs.Prelude.{◌≡◌, length};
ghost use Rattle.octets.specs.Wrote.{Wrote};
ghost use Rattle.writers.specs.Second.{SecondFits, longest_second, second_octets};

use crate::header;
use layouts::{mic, timeout};
use parameters::ToWrite;
use suites::{LONGEST_KEY, LONGEST_MIC};
use units::Seconds;

// The transaction number of a second frame.
pub const SECOND: u16 = 2;

// The octets of the longest second frame: with a PMKID, and the longest key and MIC of the tables.
pub const LONGEST: usize = header::LENGTH
    + rsne::LENGTH
    + rsne::PMKID
    + timeout::LENGTH
    + parameters::WITH_KEY
    + LONGEST_KEY
    + mic::LENGTH
    + LONGEST_MIC;

pub fn longest() -> usize
    ensures { result ≡ longest_second }
{
    LONGEST
}

// What a second frame says, beside the PMKID or none and the key.
#[derive(Clone, Copy)]
pub struct Chosen {
    pub algorithm: u16,
    pub cipher: u8,
    pub akm: u8,
    pub lifetime: Seconds,
    pub group: u16,
    pub mic: usize,
}

#[tactic(auto, using(crate::proofs::second::Laws::lengths), unfolding(crate::specs::Second::second_octets))]
pub fn put(d: &mut [u8], chosen: Chosen, pmkids: &[u8], key: &[u8]) -> usize
    requires { SecondFits chosen (length pmkids.now) (length key.now) (length d.old) }
    ensures { Wrote (second_octets chosen pmkids.now key.now) result d.old d.new }
{
    let said = ToWrite {
        comeback: None,
        format: 0,
        offer: Some(chosen.group),
    };
    let a = header::put(d, chosen.algorithm, SECOND, 0);
    let b = a + rsne::put(&mut d[a..], chosen.cipher, chosen.akm, pmkids);
    let c = b + timeout::put(&mut d[b..], chosen.lifetime);
    let e = c + parameters::put(&mut d[c..], said, &[], key);
    e + mic::put(&mut d[e..], chosen.mic)
}
