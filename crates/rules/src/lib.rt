// The rules for one peer: what a receive brings and what it gets. No table stands in them.
#![tactic(auto)]

ghost use Rattle.std.specs.Prelude.{◌≡◌, ◌≤◌, ◌^◌};
ghost use Rattle.rules.specs.OnePeer.{terms_of, status_beside, answer_number, removal_number, look_number};

use cache::Cache;
use peers::{Agreed, Peer};
use suites::{Akm, Group};
use units::{Seconds, Tu};

// What the host allows. A cipher is allowed by its flag of `suites`.
#[derive(Clone, Copy)]
pub struct Settings {
    pub pmkless: bool,
    pub ciphers: u8,
    pub lifetime: Seconds,
    pub deadline: Tu,
}

// What the host lends in numbers: whether the chip took the peer's public key for a valid point.
#[derive(Clone, Copy)]
pub struct Lent {
    pub point: bool,
}

// What a receive brings, beside its strings of octets.
#[derive(Clone, Copy)]
pub struct Brought {
    pub settings: Settings,
    pub reading: Tu,
    pub address: [u8; 6],
    pub lent: Lent,
}

// A receive as it comes in: what it brings, the cache file, the lent own public key and MIC, and the body.
#[derive(Clone, Copy)]
pub struct Incoming<'a> {
    pub brought: Brought,
    pub cache: &'a [u8],
    pub key: &'a [u8],
    pub mic: &'a [u8],
    pub body: &'a [u8],
}

// A receive that passed the checks before its body is looked at: the clock and the settings are in their ranges, and the cache is well-formed.
#[derive(Clone, Copy)]
pub struct Checked<'a> {
    pub brought: Brought,
    pub cache: Cache<'a>,
    pub key: &'a [u8],
    pub mic: &'a [u8],
    pub body: &'a [u8],
    pub ghost reading: { brought.reading.0 ≤ 2 ^ 48 },
    pub ghost deadline: { brought.settings.deadline.0 ≤ 10000 },
}

// Why a first frame is refused: the steps 1 to 11, in order.
#[derive(Clone, Copy, PartialEq, Eq)]
pub enum Refusal {
    IllFormed,
    Wrapped,
    GroupCipher,
    PairwiseCipher,
    Akm,
    Unprotected,
    Group,
    KeyForm,
    Point,
    Pmkid,
    TableFull,
}

impl Refusal {
    pub fn status(self) -> u16
        ensures { result ≡ (terms_of self).status }
    {
        match self {
            Refusal::IllFormed => 40,
            Refusal::Wrapped => 1,
            Refusal::GroupCipher => 41,
            Refusal::PairwiseCipher => 42,
            Refusal::Akm => 43,
            Refusal::Unprotected => 45,
            Refusal::Group => 77,
            Refusal::KeyForm => 40,
            Refusal::Point => 1,
            Refusal::Pmkid => 53,
            Refusal::TableFull => 30,
        }
    }

    // Whether a refusal leaves a waiting record.
    pub fn spares(self) -> bool
        ensures { result ≡ (terms_of self).spares }
    {
        matches!(self, Refusal::TableFull)
    }
}

// What steps 2 to 6 show.
#[derive(Clone, Copy)]
pub struct Suites {
    pub cipher: u8,
    pub akm: Akm,
}

// What a first frame that passes the steps comes to: what was agreed, with the PMKID as a record holds it (zeros where there is none), the MIC's length, and the group.
#[derive(Clone, Copy)]
pub struct Passed {
    pub agreed: Agreed,
    pub pmkid: [u8; 16],
    pub mic: usize,
    pub group: Group,
}

// What a receive answers.
#[derive(Clone, Copy, PartialEq, Eq)]
pub enum Answer {
    Accepted,
    ClockOut,
    BufferShort,
    SettingsOut,
    GroupAddress,
    CacheIll,
    OwnKey,
    BodyLength,
    Algorithm,
    Transaction,
    PeerInstalled,
    Refused(Refusal),
    StatusNotZero,
    NoExchange,
    ThirdRefused,
    Installed,
}

impl Answer {
    // The status beside it.
    pub fn status(self) -> Option<u16>
        ensures { result ≡ status_beside self }
    {
        match self {
            Answer::Refused(why) => Some(why.status()),
            _ => None,
        }
    }
}

// The answer's number in document 01, and so of a removal and a look-up.
impl From<Answer> for u8 {
    ghost from_gives = { λ answer n. n ≡ answer_number answer };

    fn from(answer: Answer) -> u8 {
        match answer {
            Answer::Accepted => 0,
            Answer::ClockOut => 1,
            Answer::BufferShort => 2,
            Answer::SettingsOut => 3,
            Answer::GroupAddress => 4,
            Answer::CacheIll => 5,
            Answer::OwnKey => 6,
            Answer::BodyLength => 7,
            Answer::Algorithm => 8,
            Answer::Transaction => 9,
            Answer::PeerInstalled => 10,
            Answer::Refused(_) => 11,
            Answer::StatusNotZero => 12,
            Answer::NoExchange => 13,
            Answer::ThirdRefused => 14,
            Answer::Installed => 15,
        }
    }
}

// What a removal answers, and what a look-up.
#[derive(Clone, Copy, PartialEq, Eq)]
pub enum Removal {
    ClockOut,
    GroupAddress,
    NoRecord,
    Removed,
}

#[derive(Clone, Copy, PartialEq, Eq)]
pub enum LookUp {
    ClockOut,
    GroupAddress,
    NoRecord,
    Shown,
}

impl From<Removal> for u8 {
    ghost from_gives = { λ answer n. n ≡ removal_number answer };

    fn from(answer: Removal) -> u8 {
        match answer {
            Removal::ClockOut => 1,
            Removal::GroupAddress => 4,
            Removal::NoRecord => 17,
            Removal::Removed => 16,
        }
    }
}

impl From<LookUp> for u8 {
    ghost from_gives = { λ answer n. n ≡ look_number answer };

    fn from(answer: LookUp) -> u8 {
        match answer {
            LookUp::ClockOut => 1,
            LookUp::GroupAddress => 4,
            LookUp::NoRecord => 17,
            LookUp::Shown => 18,
        }
    }
}

// What a frame leaves of this peer's record: the same, none, or another.
#[derive(Clone, Copy)]
pub enum Leaves {
    Same,
    Gone,
    Becomes(Peer),
}

// What a frame gets: the answer, the octets of the reply, and what it leaves of the record.
#[derive(Clone, Copy)]
pub struct Verdict {
    pub answer: Answer,
    pub length: usize,
    pub leaves: Leaves,
}

impl Verdict {
    // One that writes nothing.
    pub fn silent(answer: Answer, leaves: Leaves) -> Verdict
        ensures { result ≡ record { answer = answer; length = 0; leaves = leaves } }
    {
        Verdict {
            answer,
            length: 0,
            leaves,
        }
    }
}
