// Lists the body on standard input: its header, then its elements, a line each.
#![tactic(auto)]

use elements::{Element, Elements, FailedAt, Header, LONGEST_BODY};
use std::io;
use std::io::Write;

fn put_header(out: &mut impl Write, header: Header, length: usize) -> io::Result<()> {
    let Header {
        algorithm,
        transaction,
        status,
    } = header;
    writeln!(out, "{algorithm} {transaction} {status} {length}")
}

fn put_element(out: &mut impl Write, e: Element) -> io::Result<()> {
    write!(out, "{} ", e.id)?;
    match e.extension {
        Some(extension) => write!(out, "{extension} ")?,
        None => out.write_all(b"- ")?,
    }
    writeln!(out, "{} {}", e.place, e.length)
}

fn put_failure(out: &mut impl Write, place: usize) -> io::Result<()> {
    writeln!(out, "bad {place}")
}

fn list_elements(out: &mut impl Write, body: &[u8]) -> io::Result<()> {
    for element in Elements::of(body) {
        match element {
            Ok(e) => put_element(out, e)?,
            Err(FailedAt(place)) => put_failure(out, place)?,
        }
    }
    Ok(())
}

fn list_body(out: &mut impl Write, body: &[u8]) -> io::Result<()> {
    let Some(header) = elements::open_body(body) else {
        return put_failure(out, 0);
    };
    put_header(out, header, body.len())?;
    list_elements(out, body)
}

fn main(rt: HostRuntime) -> io::Result<()> {
    // One octet more than the longest body, so that a longer input is known for one.
    let mut input = [0u8; LONGEST_BODY + 1];
    let n = inputs::read_full(&mut rt.stdin(), &mut input)?;
    list_body(&mut rt.stdout(), &input[..n])
}
