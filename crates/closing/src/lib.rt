// What a third frame gets, as a verdict. No table stands in it.
#![tactic(auto)]

ghost use Rattle.std.specs.Prelude.{◌^◌, ◌≤◌, ◌≡◌, Some};
ghost use Rattle.units.specs.Units.{in_tu};
ghost use Rattle.peers.specs.declared.Phase.TheVariants.{Installed};
ghost use Rattle.rules.specs.OnePeer.{after, third_frame};
ghost use Rattle.rules.specs.Told.{Decides};

use frames::third;
use peers::{Peer, Phase};
use rules::{Answer, Leaves, Verdict};
use units::{Seconds, Tu};

// Installed until the lifetime has passed.
fn installed(lifetime: Seconds, reading: Tu) -> Phase
    requires { reading.0 ≤ 2 ^ 48 }
    ensures { result ≡ Installed (after reading (in_tu lifetime)) }
{
    Phase::Installed(Tu(reading.0 + Tu::from(lifetime).0))
}

// What a third frame gets of a peer with a live record.
pub fn answer(peer: Peer, reading: Tu, mic: &[u8], body: &[u8], status: u16) -> Verdict
    requires { reading.0 ≤ 2 ^ 48 }
    ensures { Decides (third_frame reading mic.now body.now status (Some peer)) result }
{
    let Phase::Waiting(_) = peer.phase else {
        return Verdict::silent(Answer::NoExchange, Leaves::Same);
    };
    if status != 0 {
        return Verdict::silent(Answer::StatusNotZero, Leaves::Gone);
    }
    let Some(akm) = suites::akm_of(peer.agreed.akm) else {
        return Verdict::silent(Answer::ThirdRefused, Leaves::Gone);
    };
    let Some(part) = third::read(body, akm.mic) else {
        return Verdict::silent(Answer::ThirdRefused, Leaves::Gone);
    };
    if octets::same(part.of(body), mic) {
        let phase = installed(peer.agreed.lifetime, reading);
        return Verdict::silent(Answer::Installed, Leaves::Becomes(Peer { phase, ..peer }));
    }
    Verdict::silent(Answer::ThirdRefused, Leaves::Gone)
}
