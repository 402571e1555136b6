// The body of an Authentication frame: six octets, then elements.
#![tactic(auto)]

ghost use Rattle.std.specs.Prelude.{◌≡◌, length};
ghost use Rattle.elements.specs.Body.{body_of};
ghost use Rattle.elements.specs.Lies.{Lies, content, part_of};
ghost use Rattle.elements.specs.Met.{met_at};
ghost use Rattle.elements.specs.Elements.{Comes, octets_left};

use octets::Number;

// The octets in front of a body's elements.
pub const HEADER: usize = 6;

pub const LONGEST_BODY: usize = 1024;

// The Authentication algorithm number of PASN.
pub const PASN: u16 = 7;

#[derive(Clone, Copy)]
pub struct Header {
    pub algorithm: u16,
    pub transaction: u16,
    pub status: u16,
}

// The header of a string of octets that is a body by its length.
#[tactic(auto, unfolding(crate::specs::Body::body_of))]
pub fn open_body(s: &[u8]) -> Option<Header>
    ensures { result ≡ body_of s.now }
{
    if s.len() < HEADER {
        return None;
    }
    if LONGEST_BODY < s.len() {
        return None;
    }
    Some(Header {
        algorithm: u16::read_le(s, 0),
        transaction: u16::read_le(s, 2),
        status: u16::read_le(s, 4),
    })
}

// The part of a body from `start` up to `end`: a place, since a place is what C is told of a key, and what a MIC is set at.
#[derive(Clone, Copy)]
pub struct Part {
    pub start: usize,
    pub end: usize,
}

impl Part {
    // Its octets.
    pub fn of<'a>(self, s: &'a [u8]) -> &'a [u8]
        requires { Lies 0 (length s.now) self }
        ensures { result.now ≡ content s.now self }
    {
        &s[self.start..self.end]
    }
}

// An element: the place of its ID, its extension ID where its ID is 255, where its content starts and how long that is, and the place after it.
#[derive(Clone, Copy)]
pub struct Element {
    pub id: u8,
    pub extension: Option<u8>,
    pub place: usize,
    pub start: usize,
    pub length: usize,
    pub next: usize,
}

impl Element {
    // The part of the body that its content occupies.
    pub fn content(self) -> Part
        ensures { result ≡ part_of self }
    {
        Part {
            start: self.start,
            end: self.next,
        }
    }
}

// What the walk meets at a place: three outcomes, which an `Option` in a `Result` would tell no plainer.
#[derive(Clone, Copy)]
pub enum Met {
    Stands(Element),
    End,
    Failed,
}

fn met_in(s: &[u8], at: usize) -> Met
    ensures { result ≡ met_at s.now at }
{
    if s.len() <= at {
        return Met::End;
    }
    if s.len() - at == 1 {
        return Met::Failed;
    }
    let id = s[at];
    let length = s[at + 1] as usize;
    let start = at + 2;
    if s.len() - start < length {
        return Met::Failed;
    }
    let mut extension = None;
    if id == 255 {
        if length == 0 {
            return Met::Failed;
        }
        extension = Some(s[start]);
    }
    Met::Stands(Element {
        id,
        extension,
        place: at,
        start,
        length,
        next: start + length,
    })
}

// What walks a frame: the body, and a place in it.
#[derive(Clone, Copy)]
pub struct Reader<'a> {
    pub body: &'a [u8],
    pub at: usize,
}

impl<'a> Reader<'a> {
    pub fn at(body: &'a [u8], at: usize) -> Reader<'a>
        ensures { (result.body ≡ body.entry) × (result.at ≡ at) }
    {
        Reader { body, at }
    }

    // What the reader meets at its place.
    pub fn met(self) -> Met
        ensures { result ≡ met_at self.entry.body.now self.entry.at }
    {
        met_in(self.body, self.at)
    }
}

// Every walk goes by this: what a reader of the body meets at a place.
pub fn met_at(body: &[u8], at: usize) -> Met
    ensures { result ≡ met_at body.now at }
{
    Reader::at(body, at).met()
}

// The place of the element that the walk failed at.
#[derive(Clone, Copy)]
pub struct FailedAt(pub usize);

// The elements of a body, one after another: the walk from a place on. A failure is the last that comes.
#[derive(Drop)]
pub struct Elements<'a> {
    body: &'a [u8],
    at: usize,
}

impl<'a> Elements<'a> {
    pub fn of(body: &'a [u8]) -> Elements<'a>
        ensures { (result.body ≡ body.entry) × (result.at ≡ 6) }
    {
        Elements { body, at: HEADER }
    }
}

impl<'a> Iterator for Elements<'a> {
    type Item = Result<Element, FailedAt>;

    ghost next_gives = { Comes };

    ghost remaining = { octets_left };

    fn next(&mut self) -> Option<Result<Element, FailedAt>> {
        let place = self.at;
        match met_at(self.body, place) {
            Met::End => None,
            Met::Failed => {
                self.at = self.body.len();
                Some(Err(FailedAt(place)))
            }
            Met::Stands(e) => {
                self.at = e.next;
                Some(Ok(e))
            }
        }
    }
}
