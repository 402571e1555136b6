// The records of peers, at most one to an address: what a table shows, and how records come and go in whatever holds one.
#![tactic(auto)]

ghost use Rattle.std.specs.Prelude.{ℕ, ◌≡◌, ◌<◌, [], ◌∷◌, length};
ghost use Rattle.peers.specs.declared.Table.{Table};
ghost use Rattle.peers.specs.View.{until, live, is_of, other, peer_at, stored, dated, vacant_peer};
ghost use Rattle.peers.specs.Promises.{Nobody, Finds, IsPlace, shown_at, is_full, Puts, Drops};

use units::{Seconds, Tu};

// A handshake that waits for its third frame until a deadline, or a key that is installed until its end.
#[derive(Clone, Copy)]
pub enum Phase {
    Waiting(Tu),
    Installed(Tu),
}

impl Phase {
    // The deadline of the one, the end of the other.
    pub fn until(self) -> Tu
        ensures { result ≡ until self }
    {
        match self {
            Phase::Waiting(deadline) => deadline,
            Phase::Installed(end) => end,
        }
    }
}

// What the two sides agreed on. `cached` says whether there is a PMKID. Its octets stand beside: a host's state may hold others than zeros where there is none, and a
// look-up shows them as they are.
#[derive(Clone, Copy)]
pub struct Agreed {
    pub cipher: u8,
    pub akm: u8,
    pub cached: bool,
    pub lifetime: Seconds,
}

// A record. Without a PMKID `pmkid` is zeros. Two arrays side by side would be copied as one, which takes longer.
#[derive(Clone, Copy)]
pub struct Peer {
    pub address: [u8; 6],
    pub agreed: Agreed,
    pub pmkid: [u8; 16],
    pub phase: Phase,
}

impl Peer {
    // What stands in a place without a record.
    pub fn vacant() -> Peer
        ensures { result ≡ vacant_peer }
    {
        Peer {
            address: [0; 6],
            agreed: Agreed {
                cipher: 0,
                akm: 0,
                cached: false,
                lifetime: Seconds(0),
            },
            pmkid: [0; 16],
            phase: Phase::Waiting(Tu(0)),
        }
    }

    pub fn is_live(&self, at: Tu) -> bool
        ensures { result ≡ live self.now at }
    {
        at < self.phase.until()
    }

    pub fn is_of(&self, address: &[u8; 6]) -> bool
        ensures { result ≡ is_of self.now address.now }
    {
        self.address == *address
    }
}

// Sixteen places, and the latest clock reading. A place is free where its record is not live.
#[derive(Clone, Copy)]
pub struct Table {
    pub peers: [Peer; 16],
    pub latest: Tu,
}

impl Table {
    pub fn empty() -> Table
        ensures { Nobody result }
    {
        Table {
            peers: [Peer::vacant(); 16],
            latest: Tu(0),
        }
    }
}

// Whatever holds a table: its sixteen places, and its latest reading.
pub trait Places {
    ghost table: { Self → Table };

    // How many places there are.
    fn count(&self) -> usize
        ensures sixteen { result ≡ 16 }
        ensures of_table { length (table self.now).peers ≡ result };

    // Whether the i-th record is live, and whether it is of an address.
    fn is_live(&self, i: usize, reading: Tu) -> bool
        requires { i < 16 }
        ensures { result ≡ live (peer_at (table self.now) i) reading };

    fn is_of(&self, i: usize, address: &[u8; 6]) -> bool
        requires { i < 16 }
        ensures { result ≡ is_of (peer_at (table self.now) i) address.now };

    fn peer(&self, i: usize) -> Peer
        requires { i < 16 }
        ensures { result ≡ peer_at (table self.now) i };

    fn store(&mut self, i: usize, p: Peer)
        requires { i < 16 }
        ensures { table self.new ≡ stored (table self.old) i p };

    fn clear(&mut self, i: usize)
        requires { i < 16 }
        ensures { table self.new ≡ stored (table self.old) i vacant_peer };

    fn latest(&self) -> Tu
        ensures { result ≡ (table self.now).latest };

    // A reading that is the latest already changes nothing.
    fn date(&mut self, reading: Tu)
        ensures dated { table self.new ≡ dated (table self.old) reading }
        ensures same { reading ≡ (table self.old).latest → self.new ≡ self.old };
}

impl Places for Table {
    ghost table = { λ t. t };

    fn count(&self) -> usize {
        self.peers.len()
    }

    fn is_live(&self, i: usize, reading: Tu) -> bool {
        self.peers[i].is_live(reading)
    }

    fn is_of(&self, i: usize, address: &[u8; 6]) -> bool {
        self.peers[i].is_of(address)
    }

    fn peer(&self, i: usize) -> Peer {
        self.peers[i]
    }

    fn store(&mut self, i: usize, p: Peer) {
        self.peers[i] = p;
    }

    fn clear(&mut self, i: usize) {
        self.peers[i] = Peer::vacant();
    }

    fn latest(&self) -> Tu {
        self.latest
    }

    fn date(&mut self, reading: Tu) {
        self.latest = reading;
    }
}

// What a search finds of an address: the place of its live record, which only indexes the table that was searched;
// or no live record, with room for one, or with sixteen of others.
#[derive(Clone, Copy)]
pub enum Found {
    At(usize),
    Free,
    Full,
}

impl Found {
    pub fn is_full(self) -> bool
        ensures { result ≡ is_full self }
    {
        match self {
            Found::Full => true,
            _ => false,
        }
    }
}

// One pass: the place of the record that is shown for the address, or whether a place is free. Places go by number, since octets have no records to lend.
pub fn find<S: Places>(s: &S, address: &[u8; 6], reading: Tu) -> Found
    ensures { Finds (S.table s.now) address.now reading result }
{
    let mut free = false;
    for i in 0..s.count() {
        if s.is_live(i, reading) {
            if s.is_of(i, address) {
                return Found::At(i);
            }
        } else {
            free = true;
        }
    }
    if free { Found::Free } else { Found::Full }
}

// The record at the place that a search found.
pub fn shown<S: Places>(s: &S, found: Found) -> Option<Peer>
    requires { IsPlace found }
    ensures { result ≡ shown_at (S.table s.now) found }
{
    match found {
        Found::At(i) => Some(s.peer(i)),
        Found::Free => None,
        Found::Full => None,
    }
}

// Whether the i-th record is a live one of another address.
fn is_other<S: Places>(s: &S, i: usize, address: &[u8; 6], reading: Tu) -> bool
    requires { i < 16 }
    ensures { result ≡ other reading (address.now ∷ []) (peer_at (S.table s.now) i) }
{
    s.is_live(i, reading) && !s.is_of(i, address)
}

// Stores p, at the latest reading, in the first place without a live record of another address, and clears the further ones. A full table stays as it is.
pub fn put<S: Places>(s: &mut S, p: Peer)
    ensures { Puts (S.table s.old) p (S.table s.new) }
{
    let reading = s.latest();
    let mut placed = false;
    for i in 0..s.count() {
        if !is_other(s, i, &p.address, reading) {
            if placed {
                s.clear(i);
            } else {
                s.store(i, p);
                placed = true;
            }
        }
    }
}

// Clears every place that has the address.
pub fn drop<S: Places>(s: &mut S, address: &[u8; 6])
    ensures { Drops (S.table s.old) address.now (S.table s.new) }
{
    for place in 0..s.count() {
        if s.is_of(place, address) {
            s.clear(place);
        }
    }
}
