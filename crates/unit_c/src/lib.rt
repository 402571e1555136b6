// The archive for a unit's firmware: the operations of `unit`, exported to C. Each promises what it promises there.
#![tactic(auto)]

ghost use Rattle.peers.specs.Promises.{Nobody};
ghost use Rattle.state.specs.State.{table_of};
ghost use Rattle.unit.specs.Promises.{ReceivesIn, LooksUpIn, RemovesIn, KeyAt, ZeroesMicIn, SetsMicIn};

use host::{HostCall, ReceiveResult};
use state::State;
use unit::KeyPlace;

#[unsafe(no_mangle)]
pub extern "C" fn galebeacon_empty(state: &mut State)
    ensures { Nobody (table_of state.new.0) }
{
    unit::galebeacon_empty(state);
}

#[unsafe(no_mangle)]
pub extern "C" fn galebeacon_receive(
    state: &mut State,
    call: HostCall,
    cache: &[u8],
    key: &[u8],
    mic: &[u8],
    body: &[u8],
    reply: &mut [u8],
) -> ReceiveResult
    ensures { ReceivesIn state.old.0 call cache.now key.now mic.now body.now reply.old state.new.0 result reply.new }
{
    unit::galebeacon_receive(state, call, cache, key, mic, body, reply)
}

#[unsafe(no_mangle)]
pub extern "C" fn galebeacon_look_up(
    state: &State,
    address: &[u8; 6],
    reading_tu: u64,
    shown: &mut [u8; records::SIZE],
) -> u8
    ensures { LooksUpIn state.now.0 address.now reading_tu result shown.new }
{
    unit::galebeacon_look_up(state, address, reading_tu, shown)
}

#[unsafe(no_mangle)]
pub extern "C" fn galebeacon_remove(state: &mut State, address: &[u8; 6], reading_tu: u64) -> u8
    ensures { RemovesIn state.old.0 address.now reading_tu state.new.0 result }
{
    unit::galebeacon_remove(state, address, reading_tu)
}

#[unsafe(no_mangle)]
pub extern "C" fn galebeacon_show_key(body: &[u8]) -> KeyPlace
    ensures { KeyAt body.now result }
{
    unit::galebeacon_show_key(body)
}

#[unsafe(no_mangle)]
pub extern "C" fn galebeacon_zero_mic(body: &[u8], out: &mut [u8]) -> u8
    ensures { ZeroesMicIn body.now out.old result out.new }
{
    unit::galebeacon_zero_mic(body, out)
}

#[unsafe(no_mangle)]
pub extern "C" fn galebeacon_set_mic(body: &mut [u8], mic: &[u8]) -> u8
    ensures { SetsMicIn body.old mic.now result body.new }
{
    unit::galebeacon_set_mic(body, mic)
}
