// The platform unit: the operations that a host calls, over whatever holds its sixteen records. None of them has a `requires`.
#![tactic(auto)]

ghost use Rattle.std.specs.Prelude.{◌≡◌, true};
ghost use Rattle.peers.specs.Promises.{Nobody};
ghost use Rattle.rules.specs.OnePeer.{answer_number, removal_number, is_early};
ghost use Rattle.rules.specs.Told.{call_of, incoming};
ghost use Rattle.platform.specs.Inside.{Settled};
ghost use Rattle.platform.specs.Promises.{Receives, Removes, LooksUp};

use peers::{Found, Peer, Places, Table};
use rules::{Answer, Brought, Incoming, Leaves, LookUp, Removal};
use units::Tu;

// What a receive tells: the answer, and how many octets of the reply buffer are the reply. The rest of the buffer is left alone.
#[derive(Clone, Copy)]
pub struct Told {
    pub answer: Answer,
    pub length: usize,
}

// What a receive gives back of a table.
#[derive(Clone, Copy)]
pub struct Received {
    pub table: Table,
    pub answer: Answer,
    pub length: usize,
}

// What a removal gives back of a table.
#[derive(Clone, Copy)]
pub struct Removed {
    pub table: Table,
    pub answer: Removal,
}

// What a look-up gives back: `peer` is the record where it is `Shown`, and else a vacant one, since a host is shown both.
#[derive(Clone, Copy)]
pub struct LookedUp {
    pub answer: LookUp,
    pub peer: Peer,
}

// A unit that starts: no record, latest reading 0.
pub fn empty() -> Table
    ensures { Nobody result }
{
    Table::empty()
}

// What a frame leaves of an address's record becomes so.
fn settle<S: Places>(s: &mut S, address: &[u8; 6], leaves: Leaves)
    ensures { Settled leaves address.now (S.table s.old) (S.table s.new) }
{
    match leaves {
        Leaves::Same => {}
        Leaves::Gone => peers::drop(s, address),
        Leaves::Becomes(p) => peers::put(s, p),
    }
}

// A frame is received.
pub fn receive_in<S: Places>(s: &mut S, call: Incoming, reply: &mut [u8]) -> Told
    ensures received { Receives (S.table s.old) (incoming call.entry reply.old) reply.new (record { table = S.table s.new; answer = result.answer; length = result.length }) }
    ensures early { is_early (answer_number result.answer) ≡ true → s.new ≡ s.old }
{
    let Brought {
        address,
        reading,
        ..
    } = call.brought;
    let checked = match checks::check_call(s.latest(), call, reply.len()) {
        Ok(checked) => checked,
        Err(answer) => return Told { answer, length: 0 },
    };
    let found = peers::find(s, &address, reading);
    let verdict = calls::on_body(peers::shown(s, found), found.is_full(), checked, reply);
    s.date(reading);
    settle(s, &address, verdict.leaves);
    Told {
        answer: verdict.answer,
        length: verdict.length,
    }
}

pub fn receive(
    mut t: Table,
    brought: Brought,
    cache: &[u8],
    key: &[u8],
    mic: &[u8],
    body: &[u8],
    reply: &mut [u8],
) -> Received
    ensures { Receives t (call_of brought cache.now key.now mic.now body.now reply.old) reply.new result }
{
    let call = Incoming {
        brought,
        cache,
        key,
        mic,
        body,
    };
    let Told { answer, length } = receive_in(&mut t, call, reply);
    Received {
        table: t,
        answer,
        length,
    }
}

// A peer's record is removed, waiting or installed.
pub fn remove_in<S: Places>(s: &mut S, address: &[u8; 6], reading: Tu) -> Removal
    ensures removed { Removes (S.table s.old) address.now reading (record { table = S.table s.new; answer = result }) }
    ensures early { is_early (removal_number result) ≡ true → s.new ≡ s.old }
{
    if let Err(barred) = checks::check_address(s.latest(), *address, reading) {
        return Removal::from(barred);
    }
    let found = peers::find(s, address, reading);
    s.date(reading);
    let Found::At(_) = found else {
        return Removal::NoRecord;
    };
    peers::drop(s, address);
    Removal::Removed
}

pub fn remove(mut t: Table, address: [u8; 6], reading: Tu) -> Removed
    ensures { Removes t address reading result }
{
    let answer = remove_in(&mut t, &address, reading);
    Removed { table: t, answer }
}

// The live record of an address. The latest reading stays as it was.
pub fn look_up_in<S: Places>(s: &S, address: &[u8; 6], reading: Tu) -> LookedUp
    ensures { LooksUp (S.table s.now) address.now reading result }
{
    if let Err(barred) = checks::check_address(s.latest(), *address, reading) {
        return LookedUp {
            answer: LookUp::from(barred),
            peer: Peer::vacant(),
        };
    }
    match peers::shown(s, peers::find(s, address, reading)) {
        Some(peer) => LookedUp {
            answer: LookUp::Shown,
            peer,
        },
        None => LookedUp {
            answer: LookUp::NoRecord,
            peer: Peer::vacant(),
        },
    }
}

pub fn look_up(t: Table, address: [u8; 6], reading: Tu) -> LookedUp
    ensures { LooksUp t address reading result }
{
    look_up_in(&t, &address, reading)
}
