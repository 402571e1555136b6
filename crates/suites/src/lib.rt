// The fixed tables of suites and groups, and the suite as it stands in a frame.
#![tactic(auto)]

ghost use Rattle.std.specs.Prelude.{◌≡◌, ◌+◌, ◌≤◌, length};
ghost use Rattle.octets.specs.Wrote.{Wrote};
ghost use Rattle.suites.specs.Suite.{suite_at, suite_octets};
ghost use Rattle.suites.specs.Tables.{longest_mic, akm_of, is_mic_length, cipher_of, longest_key, group_of, has_form, is_key_of};

// The selector: the first three octets of every suite that counts.
pub const OUI_0: u8 = 0x00;

pub const OUI_1: u8 = 0x0f;

pub const OUI_2: u8 = 0xac;

// A suite in a frame: one that counts, with its type, or one of another selector. An RSNE may lack one, and `Option<Option<u8>>` would read no plainer.
#[derive(Clone, Copy, PartialEq, Eq)]
pub enum Suite {
    Ours(u8),
    Other,
}

// The suite in the four octets of s from `at` on.
#[tactic(auto, unfolding(crate::specs::Suite::suite_at))]
pub fn suite_at(s: &[u8], at: usize) -> Suite
    requires { at + 4 ≤ length s.now }
    ensures { result ≡ suite_at s.now at }
{
    if s[at] == OUI_0 && s[at + 1] == OUI_1 && s[at + 2] == OUI_2 {
        Suite::Ours(s[at + 3])
    } else {
        Suite::Other
    }
}

// Writes the suite of a type to the front of d.
#[tactic(auto, unfolding(crate::specs::Suite::suite_octets))]
pub fn put_suite(d: &mut [u8], kind: u8) -> usize
    requires { 4 ≤ length d.old }
    ensures { Wrote (suite_octets kind) result d.old d.new }
{
    octets::copy_in(d, &[OUI_0, OUI_1, OUI_2, kind])
}

// An AKM: its type, the octets of the MIC that goes with it, and whether it needs a PMK.
#[derive(Clone, Copy)]
pub struct Akm {
    pub kind: u8,
    pub mic: usize,
    pub pmk: bool,
}

const AKMS: [Akm; 4] = [
    Akm {
        kind: 5,
        mic: 16,
        pmk: true,
    },
    Akm {
        kind: 6,
        mic: 16,
        pmk: true,
    },
    Akm {
        kind: 8,
        mic: 16,
        pmk: true,
    },
    Akm {
        kind: 21,
        mic: 16,
        pmk: false,
    },
];

// The longest MIC that goes with an AKM of the table.
pub const LONGEST_MIC: usize = AKMS[0].mic;

pub fn longest_mic() -> usize
    ensures { result ≡ longest_mic }
{
    LONGEST_MIC
}

// Each table is searched by the library's `find`: a trait for what has a number would be longer than the three.
pub fn akm_of(kind: u8) -> Option<Akm>
    ensures { result ≡ akm_of kind }
{
    AKMS.iter().find(|akm| akm.kind == kind).copied()
}

// Whether a MIC of n octets goes with an AKM of the table.
pub fn is_mic_length(n: usize) -> bool
    ensures { result ≡ is_mic_length n }
{
    AKMS.iter().any(|akm| akm.mic == n)
}

// The one cipher of group and group management traffic.
pub const GROUP_CIPHER: u8 = 7;

// A pairwise cipher: its type, and its flag among the settings' allowed ciphers.
#[derive(Clone, Copy)]
pub struct Cipher {
    pub kind: u8,
    pub flag: u8,
}

const CIPHERS: [Cipher; 4] = [
    Cipher { kind: 4, flag: 1 },
    Cipher { kind: 8, flag: 2 },
    Cipher { kind: 9, flag: 4 },
    Cipher { kind: 10, flag: 8 },
];

pub fn cipher_of(kind: u8) -> Option<Cipher>
    ensures { result ≡ cipher_of kind }
{
    CIPHERS.iter().find(|cipher| cipher.kind == kind).copied()
}

// How a public key may be written: its octets, and the first octets that it may have, from `lowest` to `highest`.
#[derive(Clone, Copy)]
pub struct KeyForm {
    pub length: usize,
    pub lowest: u8,
    pub highest: u8,
}

impl KeyForm {
    #[tactic(auto, unfolding(crate::specs::Tables::has_form))]
    fn is_form_of(self, key: &[u8]) -> bool
        ensures { result ≡ has_form key.now self }
    {
        key.len() == self.length
            && key.len() != 0
            && self.lowest <= key[0]
            && key[0] <= self.highest
    }
}

// A finite cyclic group, and the two forms of its public keys.
#[derive(Clone, Copy)]
pub struct Group {
    pub number: u16,
    pub compressed: KeyForm,
    pub uncompressed: KeyForm,
}

impl Group {
    // Whether a key's length and first octet are those of one of the group's forms.
    #[tactic(auto, unfolding(crate::specs::Tables::is_key_of))]
    pub fn is_key(self, key: &[u8]) -> bool
        ensures { result ≡ is_key_of self key.now }
    {
        self.compressed.is_form_of(key) || self.uncompressed.is_form_of(key)
    }
}

const GROUPS: [Group; 1] = [Group {
    number: 19,
    compressed: KeyForm {
        length: 33,
        lowest: 2,
        highest: 3,
    },
    uncompressed: KeyForm {
        length: 65,
        lowest: 4,
        highest: 4,
    },
}];

// The longest key that a group of the table has.
pub const LONGEST_KEY: usize = GROUPS[0].uncompressed.length;

pub fn longest_key() -> usize
    ensures { result ≡ longest_key }
{
    LONGEST_KEY
}

pub fn group_of(number: u16) -> Option<Group>
    ensures { result ≡ group_of number }
{
    GROUPS.iter().find(|group| group.number == number).copied()
}
