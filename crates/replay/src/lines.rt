// The line of each call.
use crate::text::put_octets;
use chip::MicAnswer;
use peers::{Peer, Phase};
use rules::{Answer, LookUp, Removal};
use std::io;
use std::io::Write;

pub fn put_received(out: &mut impl Write, answer: Answer, reply: &[u8]) -> io::Result<()> {
    write!(out, "receive {} ", u8::from(answer))?;
    match answer.status() {
        Some(status) => write!(out, "{status}")?,
        None => out.write_all(b"-")?,
    }
    write!(out, " {} ", reply.len())?;
    put_octets(out, reply)?;
    out.write_all(b"\n")
}

fn put_peer(out: &mut impl Write, peer: Peer) -> io::Result<()> {
    match peer.phase {
        Phase::Waiting(_) => out.write_all(b" waiting ")?,
        Phase::Installed(_) => out.write_all(b" installed ")?,
    }
    write!(out, "{} {} ", peer.agreed.cipher, peer.agreed.akm)?;
    if peer.agreed.cached {
        put_octets(out, &peer.pmkid)?;
    } else {
        out.write_all(b"-")?;
    }
    write!(out, " {} {}", peer.agreed.lifetime.0, peer.phase.until().0)
}

pub fn put_looked_up(out: &mut impl Write, answer: LookUp, peer: Peer) -> io::Result<()> {
    write!(out, "look {}", u8::from(answer))?;
    if let LookUp::Shown = answer {
        put_peer(out, peer)?;
    }
    out.write_all(b"\n")
}

pub fn put_removed(out: &mut impl Write, answer: Removal) -> io::Result<()> {
    writeln!(out, "remove {}", u8::from(answer))
}

pub fn put_key(out: &mut impl Write, key: &[u8]) -> io::Result<()> {
    out.write_all(b"key ")?;
    put_octets(out, key)?;
    out.write_all(b"\n")
}

// What setting or zeroing a MIC comes to; `output` is shown where it was done.
pub fn put_mic(
    out: &mut impl Write,
    operation: &[u8],
    answer: MicAnswer,
    output: &[u8],
) -> io::Result<()> {
    out.write_all(operation)?;
    write!(out, "{} ", u8::from(answer))?;
    match answer {
        MicAnswer::Done => put_octets(out, output)?,
        _ => out.write_all(b"-")?,
    }
    out.write_all(b"\n")
}
