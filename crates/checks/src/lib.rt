// The checks of a call before the records and the frame are looked at: the answers 1 to 5.
#![tactic(auto)]

ghost use Rattle.std.specs.Prelude.{◌≡◌};
ghost use Rattle.rules.specs.OnePeer.{clock_fits, settings_fit, is_group_address, checks};
ghost use Rattle.checks.specs.Checked.{Checks, barred_of, removal_of, look_up_of};

use cache::Cache;
use rules::{Answer, Checked, Incoming, LookUp, Removal, Settings};
use units::{Seconds, Tu};
use writers::second::LONGEST;

// The reply buffer has room for the longest second frame.
const SMALLEST_BUFFER: usize = LONGEST;

fn clock_fits(latest: Tu, reading: Tu) -> bool
    ensures { result ≡ clock_fits latest reading }
{
    latest <= reading && reading.in_clock()
}

fn settings_fit(s: Settings) -> bool
    ensures { result ≡ settings_fit s }
{
    Seconds(0) < s.lifetime
        && s.lifetime <= Seconds(86400)
        && Tu(0) < s.deadline
        && s.deadline <= Tu(10000)
}

fn is_group_address(address: [u8; 6]) -> bool
    ensures { result ≡ is_group_address address }
{
    address[0] % 2 == 1
}

// What a receive is checked for, in the order of the answers.
#[tactic(auto, unfolding(rules::specs::OnePeer::checks))]
pub fn check_call(latest: Tu, call: Incoming, room: usize) -> Result<Checked, Answer>
    ensures { Checks latest call.entry room result }
{
    let brought = call.brought;
    if !clock_fits(latest, brought.reading) {
        return Err(Answer::ClockOut);
    }
    if room < SMALLEST_BUFFER {
        return Err(Answer::BufferShort);
    }
    if !settings_fit(brought.settings) {
        return Err(Answer::SettingsOut);
    }
    if is_group_address(brought.address) {
        return Err(Answer::GroupAddress);
    }
    let Some(cache) = Cache::read(call.cache) else {
        return Err(Answer::CacheIll);
    };
    Ok(Checked {
        brought,
        cache,
        key: call.key,
        mic: call.mic,
        body: call.body,
    })
}

// Why a removal or a look-up does not come to the records.
#[derive(Clone, Copy)]
pub enum Barred {
    ClockOut,
    GroupAddress,
}

impl From<Barred> for Removal {
    ghost from_gives = { λ barred answer. answer ≡ removal_of barred };

    fn from(barred: Barred) -> Removal {
        match barred {
            Barred::ClockOut => Removal::ClockOut,
            Barred::GroupAddress => Removal::GroupAddress,
        }
    }
}

impl From<Barred> for LookUp {
    ghost from_gives = { λ barred answer. answer ≡ look_up_of barred };

    fn from(barred: Barred) -> LookUp {
        match barred {
            Barred::ClockOut => LookUp::ClockOut,
            Barred::GroupAddress => LookUp::GroupAddress,
        }
    }
}

// What a removal and a look-up are checked for.
#[tactic(auto, unfolding(crate::specs::Checked::barred_of))]
pub fn check_address(latest: Tu, address: [u8; 6], reading: Tu) -> Result<(), Barred>
    ensures { result ≡ barred_of latest reading address }
{
    if !clock_fits(latest, reading) {
        return Err(Barred::ClockOut);
    }
    if is_group_address(address) {
        return Err(Barred::GroupAddress);
    }
    Ok(())
}
