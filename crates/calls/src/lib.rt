// What a checked call gets by its body, and by what is known of the peer: its live record or none, and whether sixteen others are live. No table stands in it.
#![tactic(auto)]

ghost use Rattle.std.specs.Prelude.{◌≡◌, [], ◌≤◌, length};
ghost use Rattle.rules.specs.declared.Answer.{Answer};
ghost use Rattle.rules.specs.OnePeer.{is_installed, waits, gone_if, first_frame, third_frame, smallest_buffer};
ghost use Rattle.rules.specs.Told.{checked, Gets, Decides};
ghost use Rattle.calls.specs.Seen.{BodyGets};

use elements::PASN;
use peers::{Peer, Phase};
use rules::{Answer, Checked, Leaves, Verdict};

fn is_waiting(own: Option<Peer>) -> bool
    ensures { result ≡ waits own }
{
    let Some(peer) = own else {
        return false;
    };
    match peer.phase {
        Phase::Waiting(_) => true,
        Phase::Installed(_) => false,
    }
}

fn is_installed(own: Option<Peer>) -> bool
    ensures { result ≡ is_installed own }
{
    own.is_some() && !is_waiting(own)
}

// A first frame: an installed peer's key is not displaced.
fn on_first(
    own: Option<Peer>,
    full: bool,
    call: Checked,
    algorithm: u16,
    reply: &mut [u8],
) -> Verdict
    requires { smallest_buffer ≤ length reply.old }
    ensures { Gets (first_frame call.entry.brought call.entry.cache.octets.now call.entry.key.now call.entry.body.now algorithm full own) reply.old reply.new result }
{
    if is_installed(own) {
        return Verdict::silent(Answer::PeerInstalled, Leaves::Same);
    }
    opening::answer(call, algorithm, full, is_waiting(own), reply)
}

fn on_third(own: Option<Peer>, call: Checked, status: u16) -> Verdict
    ensures { Decides (third_frame call.entry.brought.reading call.entry.mic.now call.entry.body.now status own) result }
{
    let Some(peer) = own else {
        return Verdict::silent(Answer::NoExchange, Leaves::Same);
    };
    closing::answer(peer, call.brought.reading, call.mic, call.body, status)
}

// Another algorithm than PASN ends an exchange that waits.
fn on_other(own: Option<Peer>) -> Verdict
    ensures { Decides (record { answer = Answer.Algorithm; reply = []; leaves = gone_if (waits own) }) result }
{
    if is_waiting(own) {
        return Verdict::silent(Answer::Algorithm, Leaves::Gone);
    }
    Verdict::silent(Answer::Algorithm, Leaves::Same)
}

// What a body gets, once the call is checked. The reply is lent on to be written, so its room is asked for here and is no part of `Checked`.
pub fn on_body(own: Option<Peer>, full: bool, call: Checked, reply: &mut [u8]) -> Verdict
    requires { smallest_buffer ≤ length reply.old }
    ensures { BodyGets (checked call.entry reply.old) full own reply.new result }
{
    let Some(header) = elements::open_body(call.body) else {
        return Verdict::silent(Answer::BodyLength, Leaves::Same);
    };
    if header.algorithm != PASN {
        return on_other(own);
    }
    if header.transaction == 1 {
        return on_first(own, full, call, header.algorithm, reply);
    }
    if header.transaction == 3 {
        return on_third(own, call, header.status);
    }
    Verdict::silent(Answer::Transaction, Leaves::Same)
}
