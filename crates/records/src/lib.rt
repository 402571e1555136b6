// A record in octets, numbers low octet first: where each field stands, how a record is read and how it is written.
#![tactic(auto)]

ghost use Rattle.std.specs.Prelude.{◌≡◌, ◌≤◌, length};
ghost use Rattle.peers.specs.View.{until, is_of};
ghost use Rattle.records.specs.Record.{record_size, is_yes, phase_of, phase_number, peer_of, Tells};

use octets::Number;
use peers::{Agreed, Peer, Phase};
use units::{Seconds, Tu};

// Where the fields begin, each behind the one before it.
const ADDRESS_AT: usize = 0;

const HAS_PMKID_AT: usize = ADDRESS_AT + 6;

const PMKID_AT: usize = HAS_PMKID_AT + 1;

const PHASE_AT: usize = PMKID_AT + 16;

const CIPHER_AT: usize = PHASE_AT + 1;

const AKM_AT: usize = CIPHER_AT + 1;

// Two unused octets, so that the numbers behind them are aligned in the C struct of this layout.
const UNUSED_AT: usize = AKM_AT + 1;

const LIFETIME_AT: usize = UNUSED_AT + 2;

const UNTIL_AT: usize = LIFETIME_AT + 4;

// How many octets a record has.
pub const SIZE: usize = UNTIL_AT + 8;

// No bool crosses: 0 is no, anything else yes.
pub fn is_yes(n: u8) -> bool
    ensures { result ≡ is_yes n }
{
    n != 0
}

fn phase_of(phase: u8, until: Tu) -> Phase
    ensures { result ≡ phase_of phase until.0 }
{
    match phase {
        0 => Phase::Waiting(until),
        _ => Phase::Installed(until),
    }
}

fn phase_number(phase: Phase) -> u8
    ensures { result ≡ phase_number phase }
{
    match phase {
        Phase::Waiting(_) => 0,
        Phase::Installed(_) => 1,
    }
}

// The deadline or end of the record at the front of r, and whether that is of an address: no more of it is read.
#[tactic(auto, unfolding(crate::specs::Record::peer_of))]
pub fn until(r: &[u8]) -> Tu
    requires { record_size ≤ length r.now }
    ensures { result ≡ until (peer_of r.now).phase }
{
    Tu(u64::read_le(r, UNTIL_AT))
}

// The address's last octet is looked at first, since the others are often alike.
#[tactic(auto, using(crate::proofs::Apart::unlike), unfolding(crate::specs::Record::peer_of))]
pub fn is_of(r: &[u8], address: &[u8; 6]) -> bool
    requires { record_size ≤ length r.now }
    ensures { result ≡ is_of (peer_of r.now) address.now }
{
    let own: [u8; 6] = r[ADDRESS_AT..HAS_PMKID_AT].try_into().unwrap();
    own[5] == address[5] && own == *address
}

// The record at the front of r.
#[tactic(auto, unfolding(crate::specs::Record::peer_of))]
pub fn read(r: &[u8]) -> Peer
    requires { record_size ≤ length r.now }
    ensures { result ≡ peer_of r.now }
{
    Peer {
        address: r[ADDRESS_AT..HAS_PMKID_AT].try_into().unwrap(),
        agreed: Agreed {
            cipher: r[CIPHER_AT],
            akm: r[AKM_AT],
            cached: is_yes(r[HAS_PMKID_AT]),
            lifetime: Seconds(u32::read_le(r, LIFETIME_AT)),
        },
        pmkid: r[PMKID_AT..PHASE_AT].try_into().unwrap(),
        phase: phase_of(r[PHASE_AT], until(r)),
    }
}

// Writes p at the front of d.
pub fn put(d: &mut [u8], p: Peer)
    requires { record_size ≤ length d.old }
    ensures { Tells p d.old d.new }
{
    let Agreed {
        cipher,
        akm,
        cached,
        lifetime,
    } = p.agreed;
    let until = p.phase.until();
    octets::copy_in(&mut d[ADDRESS_AT..], &p.address);
    octets::copy_in(&mut d[HAS_PMKID_AT..], &[u8::from(cached)]);
    octets::copy_in(&mut d[PMKID_AT..], &p.pmkid);
    octets::copy_in(
        &mut d[PHASE_AT..],
        &[phase_number(p.phase), cipher, akm, 0, 0],
    );
    lifetime.0.put_le(&mut d[LIFETIME_AT..]);
    until.0.put_le(&mut d[UNTIL_AT..]);
}
