// What the elements of a body say. Parts are places of the body.
ghost use Rattle.std.specs.Prelude.{◌≡◌, ◌+◌, ◌<◌, ◌^◌, length};
ghost use Rattle.std.specs.Option.{ForSome};
ghost use Rattle.elements.specs.Lies.{Lies, content};
ghost use Rattle.parameters.specs.Parameters.{parameters_of};
ghost use Rattle.frames.specs.Contents.{shifted, extended, lifetime_at};

use elements::Part;
use layouts::timeout;
use parameters::{Parameters, Side};
use units::Seconds;

// A part of the part that starts at `at`, as a part of the whole.
pub fn shifted(at: usize, part: Part) -> Part
    requires { (at + part.start < 2 ^ 64) × (at + part.end < 2 ^ 64) }
    ensures { result ≡ shifted at part }
{
    Part {
        start: at + part.start,
        end: at + part.end,
    }
}

// The key lifetime that a Timeout Interval asks for, where there is one.
pub fn lifetime_at(body: &[u8], at: Option<Part>) -> Option<Option<Seconds>>
    requires { ForSome at (Lies 0 (length body.now)) }
    ensures { result ≡ lifetime_at body.now at }
{
    let Some(at) = at else {
        return Some(None);
    };
    Some(Some(timeout::read(at.of(body))?))
}

// PASN Parameters, whose content begins with the extension ID. What they tell are parts of what follows it.
pub fn parameters_at(body: &[u8], at: Part, side: Side) -> Option<Parameters>
    requires { Lies 1 (length body.now) at }
    ensures { result ≡ parameters_of side (content body.now (extended at)) }
{
    let extended = Part {
        start: at.start + 1,
        end: at.end,
    };
    parameters::read(extended.of(body), side)
}
