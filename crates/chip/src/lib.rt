// What the radio chip needs of a body: the key of a first frame to check, the MIC zeroed for its input, and the MIC set.
#![tactic(auto)]

ghost use Rattle.std.specs.Prelude.{◌≡◌};
ghost use Rattle.chip.specs.Chip.{key_in, mic_in, mic_number, ShowsKey, ZeroesMic, SetsMic};

use elements::{PASN, Part};
use frames::first;

// The empty part at place 0, which C is told where there is no key.
const NOWHERE: Part = Part { start: 0, end: 0 };

// The place of the key that a first frame shows.
#[tactic(auto, unfolding(crate::specs::Chip::key_in))]
fn key_in(body: &[u8]) -> Option<Part>
    ensures { result ≡ key_in body.now }
{
    let header = elements::open_body(body)?;
    if header.algorithm != PASN || header.transaction != 1 {
        return None;
    }
    let facts = first::read(body)?;
    let group = suites::group_of(facts.group)?;
    if !group.is_key(facts.key.of(body)) {
        return None;
    }
    Some(facts.key)
}

// The same, or the empty part at place 0.
#[tactic(auto, unfolding(crate::specs::Chip::key_part))]
pub fn show_key(body: &[u8]) -> Part
    ensures { ShowsKey body.now result }
{
    key_in(body).unwrap_or(NOWHERE)
}

// The place of the MIC in a body whose MIC can be set or zeroed.
#[tactic(auto, unfolding(crate::specs::Chip::mic_in))]
fn mic_in(body: &[u8]) -> Option<Part>
    ensures { result ≡ mic_in body.now }
{
    let header = elements::open_body(body)?;
    if header.algorithm != PASN {
        return None;
    }
    if header.transaction != 2 && header.transaction != 3 {
        return None;
    }
    let places = scan::scan_body(body).ok()?;
    let mic = places.mic.once()?;
    suites::is_mic_length(mic.end - mic.start).then_some(mic)
}

// What setting or zeroing a MIC answers.
#[derive(Clone, Copy)]
pub enum MicAnswer {
    Done,
    BufferTooShort,
    NoMic,
}

// The answer's number in document 01.
impl From<MicAnswer> for u8 {
    ghost from_gives = { λ answer number. number ≡ mic_number answer };

    fn from(answer: MicAnswer) -> u8 {
        match answer {
            MicAnswer::Done => 19,
            MicAnswer::BufferTooShort => 2,
            MicAnswer::NoMic => 20,
        }
    }
}

// Copies a body into a second buffer, its MIC zeroed.
#[tactic(auto, unfolding(crate::specs::Chip::zero_number, crate::specs::Chip::zeroed))]
pub fn zero_mic(body: &[u8], out: &mut [u8]) -> MicAnswer
    ensures { ZeroesMic body.now out.old result out.new }
{
    let Some(mic) = mic_in(body) else {
        return MicAnswer::NoMic;
    };
    if out.len() < body.len() {
        return MicAnswer::BufferTooShort;
    }
    octets::copy_in(out, body);
    octets::zero(&mut out[mic.start..], mic.end - mic.start);
    MicAnswer::Done
}

#[tactic(auto, unfolding(crate::specs::Chip::set_number, crate::specs::Chip::set_octets))]
pub fn set_mic(body: &mut [u8], mic: &[u8]) -> MicAnswer
    ensures { SetsMic body.old mic.now result body.new }
{
    let Some(at) = mic_in(body) else {
        return MicAnswer::NoMic;
    };
    if at.end - at.start != mic.len() {
        return MicAnswer::NoMic;
    }
    octets::copy_in(&mut body[at.start..], mic);
    MicAnswer::Done
}
