// Which elements of a body stand where: one walk that marks each kind that the rules speak of.
#![tactic(auto)]

ghost use Rattle.std.specs.Prelude.{◌≡◌};
ghost use Rattle.elements.specs.Walk.{walk};
ghost use Rattle.scan.specs.Scan.{kind_of, plain_kind, extended_kind, scan_by, scan_of};
ghost use Rattle.scan.specs.Noting.{seen_of};

pub use elements::FailedAt;
use elements::{Element, Elements, HEADER, LONGEST_BODY, Part};

// The elements that the rules speak of; all others are skipped.
#[derive(Clone, Copy)]
pub enum Kind {
    Rsne,
    Timeout,
    Mic,
    Fragment,
    Parameters,
    Wrapped,
    Skipped,
}

fn plain_kind(id: u8) -> Kind
    ensures { result ≡ plain_kind id }
{
    match id {
        48 => Kind::Rsne,
        56 => Kind::Timeout,
        140 => Kind::Mic,
        242 => Kind::Fragment,
        _ => Kind::Skipped,
    }
}

fn extended_kind(extension: u8) -> Kind
    ensures { result ≡ extended_kind extension }
{
    match extension {
        100 => Kind::Parameters,
        8 => Kind::Wrapped,
        _ => Kind::Skipped,
    }
}

fn kind_of(e: Element) -> Kind
    ensures { result ≡ kind_of e }
{
    match e.extension {
        Some(extension) => extended_kind(extension),
        None => plain_kind(e.id),
    }
}

// How many elements of a kind there are, and the content of the first: three cases, since a frame asks for one, for one at most, or for none.
#[derive(Clone, Copy)]
pub enum Times {
    Never,
    One(Part),
    More(Part),
}

impl Times {
    ghost use Rattle.scan.specs.Times.{once, at_most_once, is_never};

    // The content of an element that is there exactly once.
    pub fn once(self) -> Option<Part>
        ensures { result ≡ once self }
    {
        match self {
            Times::One(part) => Some(part),
            Times::Never | Times::More(_) => None,
        }
    }

    // The content of an element that is there at most once, if it is there.
    pub fn at_most_once(self) -> Option<Option<Part>>
        ensures { result ≡ at_most_once self }
    {
        match self {
            Times::Never => Some(None),
            Times::One(part) => Some(Some(part)),
            Times::More(_) => None,
        }
    }

    pub fn is_never(self) -> bool
        ensures { result ≡ is_never self }
    {
        matches!(self, Times::Never)
    }

    // One more of the kind.
    fn seen(self, content: Part) -> Times
        ensures { result ≡ seen_of self content }
    {
        match self {
            Times::Never => Times::One(content),
            Times::One(first) | Times::More(first) => Times::More(first),
        }
    }
}

#[derive(Clone, Copy)]
pub struct Places {
    pub rsne: Times,
    pub timeout: Times,
    pub mic: Times,
    pub fragment: Times,
    pub parameters: Times,
    pub wrapped: Times,
}

impl Places {
    ghost use Rattle.scan.specs.Noting.{marked};

    const NONE: Places = Places {
        rsne: Times::Never,
        timeout: Times::Never,
        mic: Times::Never,
        fragment: Times::Never,
        parameters: Times::Never,
        wrapped: Times::Never,
    };

    // One more of a kind.
    fn mark(&mut self, kind: Kind, content: Part)
        ensures { self.new ≡ marked kind self.old content }
    {
        match kind {
            Kind::Rsne => self.rsne = self.rsne.seen(content),
            Kind::Timeout => self.timeout = self.timeout.seen(content),
            Kind::Mic => self.mic = self.mic.seen(content),
            Kind::Fragment => self.fragment = self.fragment.seen(content),
            Kind::Parameters => self.parameters = self.parameters.seen(content),
            Kind::Wrapped => self.wrapped = self.wrapped.seen(content),
            Kind::Skipped => {}
        }
    }
}

#[tactic(auto, using(crate::proofs::Scanning::scanned_none, crate::proofs::Scanning::scanned_more), unfolding(crate::specs::Scan::places_of))]
fn scan_elements(body: &[u8]) -> Result<Places, FailedAt>
    ensures { result ≡ scan_by (walk body.now 6) }
{
    let mut places = Places::NONE;
    for element in Elements::of(body) {
        let e = element?;
        places.mark(kind_of(e), e.content());
    }
    Ok(places)
}

// A walk over a whole body: what stands where.
#[tactic(auto, unfolding(crate::specs::Scan::scan_of, elements::specs::Walk::walk_body))]
pub fn scan_body(body: &[u8]) -> Result<Places, FailedAt>
    ensures { result ≡ scan_of body.now }
{
    if body.len() < HEADER || LONGEST_BODY < body.len() {
        return Err(FailedAt(0));
    }
    scan_elements(body)
}
