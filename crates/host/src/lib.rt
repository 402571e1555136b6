// What a host hands over and is told, in numbers as C has them.
#![tactic(auto)]

ghost use Rattle.std.specs.Prelude.{◌≡◌};
ghost use Rattle.host.specs.Host.{settings_of, brought_of, receive_result_of};

use rules::{Answer, Brought, Lent, Settings};
use units::{Seconds, Tu};

// What the host allows. The ciphers 4, 8, 9 and 10 are the flags 1, 2, 4 and 8.
#[repr(C)]
#[derive(Clone, Copy)]
pub struct HostSettings {
    pub allow_pmkless: u8,
    pub allow_ciphers: u8,
    pub lifetime_seconds: u32,
    pub deadline_tu: u64,
}

// What a receive brings, beside its slices.
#[repr(C)]
#[derive(Clone, Copy)]
pub struct HostCall {
    pub settings: HostSettings,
    pub reading_tu: u64,
    pub address: [u8; 6],
    pub point_valid: u8,
}

// What a receive tells.
#[repr(C)]
#[derive(Clone, Copy)]
pub struct ReceiveResult {
    pub answer: u8,
    pub status: u16,
    pub length: usize,
}

impl From<HostSettings> for Settings {
    ghost from_gives = { λ host settings. settings ≡ settings_of host };

    fn from(host: HostSettings) -> Settings {
        Settings {
            pmkless: records::is_yes(host.allow_pmkless),
            ciphers: host.allow_ciphers,
            lifetime: Seconds(host.lifetime_seconds),
            deadline: Tu(host.deadline_tu),
        }
    }
}

impl From<HostCall> for Brought {
    ghost from_gives = { λ host brought. brought ≡ brought_of host };

    fn from(host: HostCall) -> Brought {
        let address = host.address;
        Brought {
            settings: Settings::from(host.settings),
            reading: Tu(host.reading_tu),
            address,
            lent: Lent {
                point: records::is_yes(host.point_valid),
            },
        }
    }
}

impl ReceiveResult {
    // What tells of an answer, and of how many octets the reply has.
    pub fn of(answer: Answer, length: usize) -> ReceiveResult
        ensures { result ≡ receive_result_of answer length }
    {
        ReceiveResult {
            answer: u8::from(answer),
            status: answer.status().unwrap_or(0),
            length,
        }
    }
}
