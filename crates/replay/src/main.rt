// Replays the call log on standard input: makes its calls, from the empty table on, and prints a line for each.
#![tactic(auto)]

mod buffer;
mod call_records;
mod lines;
mod setup;
mod stop;
mod text;

ghost use Rattle.std.specs.Prelude.{◌≤◌, length};

use call_records::LONGEST_BODY;
use octets::Number;
use peers::Table;
use setup::Setup;
use std::io;
use std::io::{Read, Write};
use stop::Stop;

// A record's tag and length.
const HEAD: usize = 3;

// The octets that a length of two octets can count, and one more.
const ANY: usize = 65536;

// A record's tag, and the length of its value.
#[derive(Clone, Copy)]
struct Head {
    tag: u8,
    length: u16,
}

// Reads one record whole, or none where the log ends.
fn read_next(input: &mut impl Read, value: &mut [u8; ANY]) -> Result<Option<Head>, Stop> {
    let mut head = [0u8; HEAD];
    let n = inputs::read_full(input, &mut head)?;
    if n == 0 {
        return Ok(None);
    }
    if n < HEAD {
        return Err(Stop::Unfit);
    }
    let length = u16::read_le(&head, 1);
    let most = length as usize;
    if inputs::read_full(input, &mut value[..most])? < most {
        return Err(Stop::Unfit);
    }
    Ok(Some(Head {
        tag: head[0],
        length,
    }))
}

// What a record came to: how many octets it has, and whether a key was installed.
#[derive(Clone, Copy)]
struct Done {
    octets: u64,
    installed: bool,
}

// One record, or none where the log ends.
fn step(
    input: &mut impl Read,
    out: &mut impl Write,
    table: &mut Table,
    setup: &mut Setup,
    value: &mut [u8; ANY],
    buffer: &mut [u8; LONGEST_BODY],
) -> Result<Option<Done>, Stop> {
    let Some(head) = read_next(input, value)? else {
        return Ok(None);
    };
    let n = head.length as usize;
    let value = &mut value[..n];
    let mut installed = false;
    if head.tag < 16 {
        setup.change(head.tag, value)?;
    } else {
        installed = call_records::call(out, table, setup, head.tag, value, buffer)?;
    }
    Ok(Some(Done {
        octets: (HEAD + n) as u64,
        installed,
    }))
}

fn main(rt: HostRuntime) -> io::Result<()> {
    let mut input = rt.stdin();
    let mut out = rt.stdout();
    let mut table = platform::empty();
    let mut setup = Setup::start();
    let mut value = [0u8; ANY];
    let mut buffer = [0u8; LONGEST_BODY];
    let mut counted = 0u64;
    let mut place = 0u64;
    // A proved loop ends: this one after more records than any log has.
    for _ in 0..u64::MAX {
        match step(
            &mut input,
            &mut out,
            &mut table,
            &mut setup,
            &mut value,
            &mut buffer,
        ) {
            Ok(Some(done)) => {
                place = place.wrapping_add(done.octets);
                counted = counted.wrapping_add(done.installed as u64);
            }
            Ok(None) => break,
            Err(Stop::Unfit) => return writeln!(out, "bad {place}"),
            Err(Stop::Io(e)) => return Err(e),
        }
    }
    writeln!(out, "counted {counted}")
}
