// The call records: each makes its call and prints its line.
ghost use Rattle.std.specs.Prelude.{◌≤◌, length};

use crate::lines;
use crate::setup::{LONGEST_BUFFER, Setup};
use crate::stop::Stop;
use octets::Number;
use peers::Table;
use rules::{Answer, Brought, Incoming};
use std::io::Write;
use units::Tu;

pub const LONGEST_BODY: usize = 4096;

// A clock reading and an address, at the front of a value.
const WHO: usize = 14;

fn reading_of(value: &[u8]) -> Tu
    requires { 14 ≤ length value.now }
{
    Tu(u64::read_le(value, 0))
}

fn address_of(value: &[u8]) -> [u8; 6]
    requires { 14 ≤ length value.now }
{
    value[8..14].try_into().unwrap()
}

// A receive, with what is in force; whether a key was installed.
fn receive(
    out: &mut impl Write,
    table: &mut Table,
    setup: &Setup,
    value: &[u8],
    buffer: &mut [u8; LONGEST_BODY],
) -> Result<bool, Stop> {
    if value.len() < WHO || value.len() > WHO + LONGEST_BODY {
        return Err(Stop::Unfit);
    }
    let call = Incoming {
        brought: Brought {
            settings: setup.settings,
            reading: reading_of(value),
            address: address_of(value),
            lent: setup.lent,
        },
        cache: setup.cache.as_slice(),
        key: setup.key.as_slice(),
        mic: setup.mic.as_slice(),
        body: &value[WHO..],
    };
    let reply = &mut buffer[..setup.room];
    let told = platform::receive_in(table, call, reply);
    lines::put_received(out, told.answer, &reply[..told.length])?;
    Ok(told.answer == Answer::Installed)
}

fn look_up(out: &mut impl Write, table: &Table, value: &[u8]) -> Result<(), Stop> {
    if value.len() != WHO {
        return Err(Stop::Unfit);
    }
    let looked = platform::look_up_in(table, &address_of(value), reading_of(value));
    lines::put_looked_up(out, looked.answer, looked.peer)?;
    Ok(())
}

fn remove(out: &mut impl Write, table: &mut Table, value: &[u8]) -> Result<(), Stop> {
    if value.len() != WHO {
        return Err(Stop::Unfit);
    }
    let answer = platform::remove_in(table, &address_of(value), reading_of(value));
    lines::put_removed(out, answer)?;
    Ok(())
}

fn show_key(out: &mut impl Write, body: &[u8]) -> Result<(), Stop> {
    if body.len() > LONGEST_BODY {
        return Err(Stop::Unfit);
    }
    lines::put_key(out, chip::show_key(body).of(body))?;
    Ok(())
}

fn zero_mic(
    out: &mut impl Write,
    value: &[u8],
    buffer: &mut [u8; LONGEST_BODY],
) -> Result<(), Stop> {
    if value.len() < 2 || value.len() > 2 + LONGEST_BODY {
        return Err(Stop::Unfit);
    }
    let room = u16::read_le(value, 0) as usize;
    if room > LONGEST_BUFFER {
        return Err(Stop::Unfit);
    }
    let body = &value[2..];
    let answer = chip::zero_mic(body, &mut buffer[..room]);
    lines::put_mic(out, b"zero ", answer, &buffer[..body.len()])?;
    Ok(())
}

fn set_mic(out: &mut impl Write, body: &mut [u8], mic: &[u8]) -> Result<(), Stop> {
    if body.len() > LONGEST_BODY {
        return Err(Stop::Unfit);
    }
    let answer = chip::set_mic(body, mic);
    lines::put_mic(out, b"set ", answer, body)?;
    Ok(())
}

fn empty(out: &mut impl Write, table: &mut Table, value: &[u8]) -> Result<(), Stop> {
    if !value.is_empty() {
        return Err(Stop::Unfit);
    }
    *table = platform::empty();
    out.write_all(b"empty\n")?;
    Ok(())
}

// Whether a key was installed. Tags are numbers by the log's format.
pub fn call(
    out: &mut impl Write,
    table: &mut Table,
    setup: &Setup,
    tag: u8,
    value: &mut [u8],
    buffer: &mut [u8; LONGEST_BODY],
) -> Result<bool, Stop> {
    match tag {
        16 => return receive(out, table, setup, value, buffer),
        17 => look_up(out, table, value)?,
        18 => remove(out, table, value)?,
        19 => show_key(out, value)?,
        20 => zero_mic(out, value, buffer)?,
        21 => set_mic(out, value, setup.mic.as_slice())?,
        22 => empty(out, table, value)?,
        _ => return Err(Stop::Unfit),
    }
    Ok(false)
}
