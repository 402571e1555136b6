// The content of an RSNE.
#![tactic(auto)]

ghost use Rattle.std.specs.Prelude.{◌≡◌, ◌+◌, ◌≤◌, ◌<◌, length};
ghost use Rattle.octets.specs.Wrote.{Wrote};
ghost use Rattle.rsne.specs.Rsne.{only_of, rsne_of, rsne_size, rsne_octets};

use elements::Part;
use octets::Number;
use suites::{GROUP_CIPHER, Suite};

// What an RSNE says; of a list of suites the only one, or None if it has none or several.
#[derive(Clone, Copy)]
pub struct Rsne {
    pub group: Suite,
    pub pairwise: Option<Suite>,
    pub akm: Option<Suite>,
    pub capabilities: u16,
    pub pmkids: Part,
    pub management: Suite,
}

// The only one of `count` suites from `at` on.
fn only_of(content: &[u8], count: usize, at: usize) -> Option<Suite>
    requires { at + 4 ≤ length content.now }
    ensures { result ≡ only_of content.now count at }
{
    if count == 1 {
        Some(suites::suite_at(content, at))
    } else {
        None
    }
}

#[tactic(auto, unfolding(crate::specs::Rsne::rsne_of, crate::specs::Rsne::pairwise_count, crate::specs::Rsne::akm_count, crate::specs::Rsne::pmkid_count))]
pub fn read(content: &[u8]) -> Option<Rsne>
    ensures { result ≡ rsne_of content.now }
{
    let n = content.len();
    if n < 18 || u16::read_le(content, 0) != 1 {
        return None;
    }
    let m = u16::read_le(content, 6) as usize;
    let pairwise = 4 * m;
    if n < 18 + pairwise {
        return None;
    }
    let a = u16::read_le(content, 8 + pairwise) as usize;
    let akms = 4 * a;
    if n < 18 + pairwise + akms {
        return None;
    }
    let p = u16::read_le(content, 12 + pairwise + akms) as usize;
    let start = 14 + pairwise + akms;
    let end = start + 16 * p;
    if n != end + 4 {
        return None;
    }
    Some(Rsne {
        group: suites::suite_at(content, 2),
        pairwise: only_of(content, m, 8),
        akm: only_of(content, a, 10 + pairwise),
        capabilities: u16::read_le(content, 10 + pairwise + akms),
        pmkids: Part { start, end },
        management: suites::suite_at(content, end),
    })
}

// The octets of an element as it is written, beside its PMKIDs, and of a PMKID.
pub const LENGTH: usize = 28;

pub const PMKID: usize = 16;

// Writes a whole element: one pairwise suite, one AKM, management frames protected, and PMKIDs of 16 octets each.
pub fn put(d: &mut [u8], cipher: u8, akm: u8, pmkids: &[u8]) -> usize
    requires { (length pmkids.now < 230) × (length pmkids.now + rsne_size ≤ length d.old) }
    ensures { Wrote (rsne_octets cipher akm pmkids.now) result d.old d.new }
{
    let n = pmkids.len();
    let head = [
        48,
        (n + 26) as u8,
        1,
        0,
        suites::OUI_0,
        suites::OUI_1,
        suites::OUI_2,
        GROUP_CIPHER,
        1,
        0,
        suites::OUI_0,
        suites::OUI_1,
        suites::OUI_2,
        cipher,
        1,
        0,
        suites::OUI_0,
        suites::OUI_1,
        suites::OUI_2,
        akm,
        0xc0,
        0,
        (n / 16) as u8,
        0,
    ];
    let a = octets::copy_in(d, &head);
    let b = a + octets::copy_in(&mut d[a..], pmkids);
    b + suites::put_suite(&mut d[b..], GROUP_CIPHER)
}
