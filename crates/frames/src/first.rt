// The first frame.
ghost use Rattle.std.specs.Prelude.{◌≡◌, ◌&&◌, nat_lt};
ghost use Rattle.frames.specs.First.{is_wrapped, first_of};

use crate::contents;
use elements::Part;
use parameters::{Offer, Side};
use rsne::Rsne;
use units::Seconds;

// What a first frame says that passes step 1. The PMKIDs and the key are parts of the body.
#[derive(Clone, Copy)]
pub struct Facts {
    pub rsne: Rsne,
    pub lifetime: Option<Seconds>,
    pub format: u8,
    pub group: u16,
    pub key: Part,
}

// Whether Wrapped Data is there exactly if the format says so, and the format is none that is reserved.
fn wrapped_fits(format: u8, wrapped: Option<Part>) -> bool
    ensures { result ≡ (nat_lt format 4 && is_wrapped format wrapped) }
{
    match wrapped {
        None => format == 0,
        Some(_) => format != 0 && format < 4,
    }
}

#[tactic(auto, unfolding(crate::specs::First::first_of))]
pub fn read(body: &[u8]) -> Option<Facts>
    ensures { result ≡ first_of body.now }
{
    let places = scan::scan_body(body).ok()?;
    if !places.fragment.is_never() {
        return None;
    }
    let at_rsne = places.rsne.once()?;
    let at_timeout = places.timeout.at_most_once()?;
    let at_parameters = places.parameters.once()?;
    let at_wrapped = places.wrapped.at_most_once()?;
    let rsne = rsne::read(at_rsne.of(body))?;
    let lifetime = contents::lifetime_at(body, at_timeout)?;
    let parameters = contents::parameters_at(body, at_parameters, Side::Station)?;
    if !wrapped_fits(parameters.format, at_wrapped) {
        return None;
    }
    let Offer { group, key } = parameters.offer?;
    Some(Facts {
        rsne: Rsne {
            pmkids: contents::shifted(at_rsne.start, rsne.pmkids),
            ..rsne
        },
        lifetime,
        format: parameters.format,
        group,
        key: contents::shifted(at_parameters.start + 1, key),
    })
}
