// The octets of a line, written to `out`.
ghost use Rattle.std.specs.Prelude.{◌<◌};

use std::io;
use std::io::Write;

fn digit(n: u8) -> u8
    requires { n < 16 }
{
    if n < 10 {
        return b'0' + n;
    }
    b'a' + (n - 10)
}

// The octets that are turned into digits at a time.
const CHUNK: usize = 256;

// Two digits an octet.
fn spell(s: &[u8], digits: &mut [u8]) {
    for (pair, octet) in digits.chunks_exact_mut(2).zip(s) {
        pair[0] = digit(octet / 16);
        pair[1] = digit(octet % 16);
    }
}

// Digits, or `-` where there is no octet.
pub fn put_octets(out: &mut impl Write, s: &[u8]) -> io::Result<()> {
    if s.is_empty() {
        return out.write_all(b"-");
    }
    for octets in s.chunks(CHUNK) {
        let mut digits = [0u8; 2 * CHUNK];
        spell(octets, &mut digits);
        out.write_all(&digits[..2 * octets.len()])?;
    }
    Ok(())
}
