// What set-up records leave in force until the next one of their tag.
ghost use Rattle.std.specs.Prelude.{◌≤◌};

use crate::buffer::Buffer;
use crate::stop::Unfit;
use octets::Number;
use rules::{Lent, Settings};
use units::{Seconds, Tu};
use writers::second::LONGEST;

// The greatest lengths that a log's strings and buffers have.
const LONGEST_CACHE: usize = 40000;

const LONGEST_LENT: usize = 255;

pub const LONGEST_BUFFER: usize = 2048;

#[derive(Drop)]
pub struct Setup {
    pub settings: Settings,
    pub cache: Buffer<LONGEST_CACHE>,
    pub lent: Lent,
    pub key: Buffer<LONGEST_LENT>,
    pub mic: Buffer<LONGEST_LENT>,
    pub room: usize,
    ghost room_fits: { room ≤ 2048 },
}

impl Setup {
    // Before the first record.
    pub fn start() -> Setup {
        Setup {
            settings: Settings {
                pmkless: false,
                ciphers: 0,
                lifetime: Seconds(0),
                deadline: Tu(0),
            },
            cache: Buffer::empty(),
            lent: Lent { point: false },
            key: Buffer::empty(),
            mic: Buffer::empty(),
            room: LONGEST,
        }
    }

    // Tags are numbers by the log's format.
    pub fn change(&mut self, tag: u8, value: &[u8]) -> Result<(), Unfit> {
        match tag {
            1 => self.set_settings(value),
            2 => self.cache.set(value),
            3 => self.set_point(value),
            4 => self.key.set(value),
            5 => self.mic.set(value),
            6 => self.set_room(value),
            _ => Err(Unfit),
        }
    }

    fn set_settings(&mut self, value: &[u8]) -> Result<(), Unfit> {
        if value.len() != 10 {
            return Err(Unfit);
        }
        self.settings = Settings {
            pmkless: value[0] % 2 == 1,
            ciphers: value[1],
            lifetime: Seconds(u32::read_le(value, 2)),
            deadline: Tu(u32::read_le(value, 6) as u64),
        };
        Ok(())
    }

    fn set_point(&mut self, value: &[u8]) -> Result<(), Unfit> {
        if value.len() != 1 {
            return Err(Unfit);
        }
        self.lent = Lent {
            point: value[0] != 0,
        };
        Ok(())
    }

    fn set_room(&mut self, value: &[u8]) -> Result<(), Unfit> {
        if value.len() != 2 {
            return Err(Unfit);
        }
        let room = u16::read_le(value, 0) as usize;
        if room > LONGEST_BUFFER {
            return Err(Unfit);
        }
        self.room = room;
        Ok(())
    }
}
