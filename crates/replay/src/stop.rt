// Why a replay stops before its log ends.
use std::io;

// A record is not as its row allows.
#[derive(Clone, Copy)]
pub struct Unfit;

pub enum Stop {
    Unfit,
    Io(io::Error),
}

impl From<Unfit> for Stop {
    fn from(_: Unfit) -> Stop {
        Stop::Unfit
    }
}

impl From<io::Error> for Stop {
    fn from(e: io::Error) -> Stop {
        Stop::Io(e)
    }
}
