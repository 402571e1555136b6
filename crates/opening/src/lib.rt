// What a first frame gets, as a verdict: its eleven steps, its refusal and its acceptance. No table stands in it.
#![tactic(auto)]

ghost use Rattle.std.specs.Prelude.{◌≡◌, ◌≤◌, length};
ghost use Rattle.writers.specs.Header.{header_size};
ghost use Rattle.rules.specs.OnePeer.{steps, passed_with, listed, left_by, refusal, acceptance, first_outcome, smallest_buffer};
ghost use Rattle.rules.specs.Told.{leaves_of, Gets};
ghost use Rattle.opening.specs.Replies.{ReplyFits};

use frames::first;
use peers::{Agreed, Peer, Phase};
use rules::{Answer, Brought, Checked, Leaves, Passed, Refusal, Suites, Verdict};
use suites::Group;
use units::{Seconds, Tu};
use writers::second;
use writers::second::{Chosen, SECOND};

// What passed the steps, with this PMKID or none.
fn passed_with(suites: Suites, group: Group, pmkid: Option<[u8; 16]>, lifetime: Seconds) -> Passed
    ensures { result ≡ passed_with suites group pmkid lifetime }
{
    let agreed = Agreed {
        cipher: suites.cipher,
        akm: suites.akm.kind,
        cached: pmkid.is_some(),
        lifetime,
    };
    Passed {
        agreed,
        pmkid: pmkid.unwrap_or([0; 16]),
        mic: suites.akm.mic,
        group,
    }
}

// The eleven steps.
#[tactic(auto, unfolding(rules::specs::OnePeer::steps), using(frames::proofs::first::Laws::first_lies))]
fn decide(call: Checked, full: bool) -> Result<Passed, Refusal>
    ensures { result ≡ steps call.entry.brought call.entry.cache.octets.now call.entry.body.now full }
{
    let Brought {
        settings,
        reading,
        lent,
        ..
    } = call.brought;
    let facts = first::read(call.body).ok_or(Refusal::IllFormed)?;
    let suites = steps::suite_steps(settings, facts.format, facts.rsne)?;
    let group = steps::key_steps(facts.group, facts.key.of(call.body), lent.point)?;
    let pmkids = facts.rsne.pmkids.of(call.body);
    let pmkid = steps::pmkid_step(suites.akm, call.cache, pmkids, reading)?;
    if full {
        return Err(Refusal::TableFull);
    }
    let lifetime = steps::lifetime_of(settings.lifetime, facts.lifetime);
    Ok(passed_with(suites, group, pmkid, lifetime))
}

// What a refusal leaves, where `waiting` says whether a record waits.
fn left_by(why: Refusal, waiting: bool) -> Leaves
    ensures { result ≡ leaves_of (left_by waiting why) }
{
    if why.spares() {
        return Leaves::Same;
    }
    if waiting {
        return Leaves::Gone;
    }
    Leaves::Same
}

// A refusal: six octets.
fn refuse_with(algorithm: u16, waiting: bool, why: Refusal, reply: &mut [u8]) -> Verdict
    requires { header_size ≤ length reply.old }
    ensures { Gets (refusal algorithm waiting why) reply.old reply.new result }
{
    let length = writers::header::put(reply, algorithm, SECOND, why.status());
    Verdict {
        answer: Answer::Refused(why),
        length,
        leaves: left_by(why, waiting),
    }
}

// The second frame, for a frame that passed the steps, where our own key is one of its group.
// Compiled into its caller, its copy of a PMKID that lies on the same stack becomes a call of memcpy, which the archive else needs of no host.
#[inline(never)]
fn accept(call: Checked, passed: Passed, algorithm: u16, reply: &mut [u8]) -> Verdict
    requires { ReplyFits passed call.key.now (length reply.old) }
    ensures { Gets (acceptance call.entry.brought call.entry.key.now algorithm passed) reply.old reply.new result }
{
    let brought = call.brought;
    if !passed.group.is_key(call.key) {
        return Verdict::silent(Answer::OwnKey, Leaves::Same);
    }
    let chosen = Chosen {
        algorithm,
        cipher: passed.agreed.cipher,
        akm: passed.agreed.akm,
        lifetime: passed.agreed.lifetime,
        group: passed.group.number,
        mic: passed.mic,
    };
    let Brought {
        address,
        reading,
        ..
    } = brought;
    let pmkid = passed.pmkid;
    let next = Peer {
        address,
        agreed: passed.agreed,
        pmkid,
        phase: Phase::Waiting(Tu(reading.0 + brought.settings.deadline.0)),
    };
    Verdict {
        answer: Answer::Accepted,
        length: second::put(reply, chosen, listed(&passed), call.key),
        leaves: Leaves::Becomes(next),
    }
}

// The PMKID that a second frame lists, or none.
fn listed(passed: &Passed) -> &[u8]
    ensures { result.now ≡ listed passed.now }
{
    if passed.agreed.cached {
        return &passed.pmkid;
    }
    &[]
}

// What a first frame gets of a peer that is not installed; `waiting` says whether a record of it waits.
pub fn answer(call: Checked, algorithm: u16, full: bool, waiting: bool, reply: &mut [u8]) -> Verdict
    requires { smallest_buffer ≤ length reply.old }
    ensures { Gets (first_outcome call.entry.brought call.entry.key.now algorithm waiting (steps call.entry.brought call.entry.cache.octets.now call.entry.body.now full)) reply.old reply.new result }
{
    match decide(call, full) {
        Err(why) => refuse_with(algorithm, waiting, why, reply),
        Ok(passed) => accept(call, passed, algorithm, reply),
    }
}
