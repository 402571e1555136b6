// PASN Parameters, read from the octet after the extension ID on, and written whole.
#![tactic(auto)]

ghost use Rattle.std.specs.Prelude.{◌≡◌, ◌++◌, ◌+◌, ◌*◌, ◌≤◌, ◌<◌, length};
ghost use Rattle.octets.specs.Numbers.{octets};
ghost use Rattle.octets.specs.Wrote.{Wrote};
ghost use Rattle.parameters.specs.Parameters.{after_width, comeback_from, offer_from, parameters_of, counted, comeback_octets, offer_octets, bit, parameters_octets, side_of, comeback_by, offer_by, said_by, Fits};

use elements::Part;
use octets::Number;

// Who wrote the element.
#[derive(Clone, Copy, PartialEq, Eq)]
pub enum Side {
    Station,
    AccessPoint,
}

impl Side {
    // The octets of Comeback After.
    fn after_width(self) -> usize
        ensures { result ≡ after_width self }
    {
        match self {
            Side::Station => 0,
            Side::AccessPoint => 2,
        }
    }
}

// What comes with control bit B0: a station's cookie, or an access point's Comeback After (in TU) and cookie.
#[derive(Clone, Copy)]
pub enum Comeback {
    Cookie(Part),
    After(u16, Part),
}

// What comes with control bit B1: a group, and a public key of it.
#[derive(Clone, Copy)]
pub struct Offer {
    pub group: u16,
    pub key: Part,
}

#[derive(Clone, Copy)]
pub struct Parameters {
    pub comeback: Option<Comeback>,
    pub format: u8,
    pub offer: Option<Offer>,
}

// What comes with B0, and the place after it.
#[tactic(auto, unfolding(crate::specs::Parameters::comeback_from))]
fn read_comeback(content: &[u8], side: Side) -> Option<(Option<Comeback>, usize)>
    requires { 2 ≤ length content.now }
    ensures { result ≡ comeback_from side content.now }
{
    if content[0] % 2 == 0 {
        return Some((None, 2));
    }
    let at = 2 + side.after_width();
    if content.len() <= at {
        return None;
    }
    let start = at + 1;
    let end = start + content[at] as usize;
    if content.len() < end {
        return None;
    }
    let cookie = Part { start, end };
    match side {
        Side::Station => Some((Some(Comeback::Cookie(cookie)), end)),
        Side::AccessPoint => Some((Some(Comeback::After(u16::read_le(content, 2), cookie)), end)),
    }
}

// What comes with B1, from `at` on to the end.
#[tactic(auto, unfolding(crate::specs::Parameters::offer_from))]
fn read_offer(content: &[u8], at: usize) -> Option<Option<Offer>>
    requires { (2 ≤ at) × (at ≤ length content.now) }
    ensures { result ≡ offer_from content.now at }
{
    let end = content.len();
    if content[0] / 2 % 2 == 0 {
        return if end == at { Some(None) } else { None };
    }
    if end - at < 3 {
        return None;
    }
    let start = at + 3;
    if end - start != content[at + 2] as usize {
        return None;
    }
    Some(Some(Offer {
        group: u16::read_le(content, at),
        key: Part { start, end },
    }))
}

#[tactic(auto, using(crate::proofs::Laws::comeback_ends), unfolding(crate::specs::Parameters::parameters_of))]
pub fn read(content: &[u8], side: Side) -> Option<Parameters>
    ensures { result ≡ parameters_of side content.now }
{
    if content.len() < 2 {
        return None;
    }
    let (comeback, at) = read_comeback(content, side)?;
    let offer = read_offer(content, at)?;
    Some(Parameters {
        comeback,
        format: content[1],
        offer,
    })
}

// What is written with B0, beside the cookie's octets.
#[derive(Clone, Copy)]
pub enum ComebackToWrite {
    Cookie,
    After(u16),
}

// What is written, beside the octets of the cookie and of the key: with B1 the key's group.
#[derive(Clone, Copy)]
pub struct ToWrite {
    pub comeback: Option<ComebackToWrite>,
    pub format: u8,
    pub offer: Option<u16>,
}

impl ToWrite {
    // The control octet: each bit is set if something comes with it.
    fn control(self) -> u8
        ensures { result ≡ bit self.comeback + 2 * bit self.offer }
    {
        u8::from(self.comeback.is_some()) + 2 * u8::from(self.offer.is_some())
    }
}

// A length octet, and the octets.
fn put_counted(d: &mut [u8], s: &[u8]) -> usize
    requires { (length s.now < 256) × (length s.now < length d.old) }
    ensures { Wrote (counted s.now) result d.old d.new }
{
    let head = octets::copy_in(d, &[s.len() as u8]);
    head + octets::copy_in(&mut d[head..], s)
}

// A number of two octets before them.
#[tactic(auto, unfolding(octets::specs::Numbers::octets))]
fn put_numbered(d: &mut [u8], n: u16, s: &[u8]) -> usize
    requires { (length s.now < 256) × (length s.now + 3 ≤ length d.old) }
    ensures { Wrote (octets 2 n ++ counted s.now) result d.old d.new }
{
    let head = n.put_le(d);
    head + put_counted(&mut d[head..], s)
}

fn put_comeback(d: &mut [u8], comeback: Option<ComebackToWrite>, cookie: &[u8]) -> usize
    requires { Fits 255 (comeback_octets (side_of comeback) (comeback_by comeback cookie.now)) (length d.old) }
    ensures { Wrote (comeback_octets (side_of comeback) (comeback_by comeback cookie.now)) result d.old d.new }
{
    let Some(comeback) = comeback else { return 0 };
    match comeback {
        ComebackToWrite::Cookie => put_counted(d, cookie),
        ComebackToWrite::After(after) => put_numbered(d, after, cookie),
    }
}

#[tactic(auto, unfolding(octets::specs::Numbers::octets))]
fn put_offer(d: &mut [u8], offer: Option<u16>, key: &[u8]) -> usize
    requires { Fits 255 (offer_octets (offer_by offer key.now)) (length d.old) }
    ensures { Wrote (offer_octets (offer_by offer key.now)) result d.old d.new }
{
    match offer {
        None => 0,
        Some(group) => put_numbered(d, group, key),
    }
}

// The octets of an element with a group and a key and nothing else, beside the key.
pub const WITH_KEY: usize = 8;

// Writes a whole element. The cookie and the key are looked at where they are to be written.
#[tactic(auto, using(crate::proofs::Laws::length_parameters))]
pub fn put(d: &mut [u8], written: ToWrite, cookie: &[u8], key: &[u8]) -> usize
    requires { Fits 257 (parameters_octets (side_of written.comeback) (said_by written cookie.now key.now)) (length d.old) }
    ensures { Wrote (parameters_octets (side_of written.comeback) (said_by written cookie.now key.now)) result d.old d.new }
{
    let head = 5;
    let b = head + put_comeback(&mut d[head..], written.comeback, cookie);
    let end = b + put_offer(&mut d[b..], written.offer, key);
    octets::copy_in(
        d,
        &[255, (end - 2) as u8, 100, written.control(), written.format],
    );
    end
}
