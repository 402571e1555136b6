// The cache file: whether it is well-formed, and the search.
#![tactic(auto)]

ghost use Rattle.std.specs.Prelude.{◌≡◌, true, ◌/◌, length, IfSome, is_some, option_map};
ghost use Rattle.octets.specs.Pieces.{pieces};
ghost use Rattle.cache.specs.File.{is_record, cached_of, is_well_formed, records_of};
ghost use Rattle.cache.specs.Search.{matches, end_of, found_of, choice_of};

use octets::Number;
use units::Tu;

// A record: its tag, the length of its value, and how many octets it has in all.
const TAG: u8 = 0x31;

const LENGTH: u16 = 25;

const RECORD: usize = 28;

const MOST_RECORDS: usize = 64;

// The octets of a PMKID.
const PMKID: usize = 16;

// Where in a record its PMKID, its AKM type and its end stand.
const PMKID_AT: usize = 3;

const AKM_AT: usize = PMKID_AT + PMKID;

const END_AT: usize = AKM_AT + 1;

// Whether so many octets are a record.
fn is_record(octets: &[u8]) -> bool
    requires { length octets.now ≡ 28 }
    ensures { result ≡ is_record 0x31 25 octets.now }
{
    octets[0] == TAG && u16::read_le(octets, 1) == LENGTH
}

// A file's length tells how many records it is to have, so that none are counted on the way.
pub fn is_well_formed(file: &[u8]) -> bool
    ensures { result ≡ is_well_formed file.now }
{
    file.len() % RECORD == 0
        && file.len() / RECORD <= MOST_RECORDS
        && file.chunks_exact(RECORD).all(is_record)
}

// The end of a record.
fn end_of(cached: &[u8]) -> Tu
    requires { length cached.now ≡ 28 }
    ensures { result ≡ end_of (cached_of cached.now) }
{
    Tu(u64::read_le(cached, END_AT))
}

// Whether a record is of that PMKID and the same AKM, and its end later than the reading.
// PMKIDs mostly differ in their latter half already, so that is compared first, as one number; the whole as arrays, which are compared sixteen octets at a time.
#[tactic(auto, using(crate::proofs::Search::half_otherwise))]
fn matches(cached: &[u8], pmkid: &[u8; PMKID], akm: u8, reading: Tu) -> bool
    requires { length cached.now ≡ 28 }
    ensures { result ≡ matches pmkid.now akm reading (cached_of cached.now) }
{
    if u64::read_le(cached, AKM_AT - 8) != u64::read_le(pmkid, PMKID - 8) {
        return false;
    }
    let own: [u8; PMKID] = cached[PMKID_AT..AKM_AT].try_into().unwrap();
    own == *pmkid && cached[AKM_AT] == akm && reading < end_of(cached)
}

// The first PMKID of a list that has a record which matches: its number in the list, counted from 0, and that record's end.
#[derive(Clone, Copy)]
pub struct Choice {
    pub pmkid: usize,
    pub end: Tu,
}

// A well-formed file, where it lies.
#[derive(Clone, Copy)]
pub struct Cache<'a> {
    pub octets: &'a [u8],
    pub ghost formed: { is_well_formed octets.now ≡ true },
}

impl<'a> Cache<'a> {
    pub fn read(file: &'a [u8]) -> Option<Cache<'a>>
        ensures formed { is_some result ≡ is_well_formed file.now }
        ensures same { IfSome result (λ cache. cache.octets.now ≡ file.now) }
    {
        if is_well_formed(file) {
            return Some(Cache { octets: file });
        }
        None
    }

    // The end of a PMKID's first record that matches.
    fn find(self, pmkid: &[u8; PMKID], akm: u8, reading: Tu) -> Option<Tu>
        ensures { result ≡ option_map end_of (found_of (records_of self.entry.octets.now) pmkid.now akm reading) }
    {
        self.octets
            .chunks_exact(RECORD)
            .find(|cached| matches(cached, pmkid, akm, reading))
            .map(end_of)
    }

    // `pmkids` is the list's octets, 16 each. What is left over at its end is no PMKID.
    pub fn choose(self, pmkids: &[u8], akm: u8, reading: Tu) -> Option<Choice>
        ensures { result ≡ choice_of (records_of self.entry.octets.now) (pieces 16 (length pmkids.now / 16) pmkids.now) akm reading }
    {
        for (k, pmkid) in pmkids.chunks_exact(PMKID).enumerate() {
            let pmkid: [u8; PMKID] = pmkid.try_into().unwrap();
            if let Some(end) = self.find(&pmkid, akm, reading) {
                return Some(Choice { pmkid: k, end });
            }
        }
        None
    }
}
