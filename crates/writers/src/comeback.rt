// The reply that tells a station to come back.
ghost use Rattle.std.specs.Prelude.{length, take};
ghost use Rattle.octets.specs.Wrote.{Wrote};
ghost use Rattle.writers.specs.Comeback.{comeback_reply, ComebackFits};
ghost use Rattle.writers.specs.ComebackRead.{ReadsBack};

use crate::header;
use crate::second::SECOND;
use parameters::{ComebackToWrite, ToWrite};

#[tactic(auto, using(crate::proofs::header::Laws::length_header, parameters::proofs::Laws::length_come_back), unfolding(crate::specs::Comeback::comeback_reply))]
pub fn put(d: &mut [u8], algorithm: u16, status: u16, after: u16, cookie: &[u8]) -> usize
    requires { ComebackFits (length cookie.now) (length d.old) }
    ensures wrote { Wrote (comeback_reply algorithm status after cookie.now) result d.old d.new }
    ensures reads_back { ReadsBack algorithm status after cookie.now (take result d.new) }
{
    let said = ToWrite {
        comeback: Some(ComebackToWrite::After(after)),
        format: 0,
        offer: None,
    };
    let a = header::put(d, algorithm, SECOND, status);
    a + parameters::put(&mut d[a..], said, cookie, &[])
}
