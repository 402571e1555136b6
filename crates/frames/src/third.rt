// The third frame.
ghost use Rattle.std.specs.Prelude.{◌≡◌};
ghost use Rattle.frames.specs.Third.{third_of};

use crate::contents;
use elements::Part;
use parameters::Side;

// The place of the MIC, in a third frame that is refused for nothing else. n is the length that the exchange's MIC has.
#[tactic(auto, unfolding(crate::specs::Third::third_of))]
pub fn read(body: &[u8], n: usize) -> Option<Part>
    ensures { result ≡ third_of body.now n }
{
    let places = scan::scan_body(body).ok()?;
    if !places.fragment.is_never() {
        return None;
    }
    let at_parameters = places.parameters.once()?;
    let mic = places.mic.once()?;
    let parameters = contents::parameters_at(body, at_parameters, Side::Station)?;
    // They say nothing: B0 and B1 clear.
    if parameters.comeback.is_some() || parameters.offer.is_some() {
        return None;
    }
    if parameters.format != 0 || !places.wrapped.is_never() {
        return None;
    }
    if mic.end - mic.start != n {
        return None;
    }
    Some(mic)
}
