// The steps of the first frame that choose: its suites, its group and the PMKID, and the lifetime.
#![tactic(auto)]

ghost use Rattle.std.specs.Prelude.{◌≡◌, ◌+◌, ◌*◌, ◌≤◌, length, take, drop};
ghost use Rattle.suites.specs.Tables.{cipher_of};
ghost use Rattle.rules.specs.OnePeer.{is_suite, is_allowed, step4, step5, is_protected, suite_steps, key_steps, step10, lifetime_of};

use cache::Cache;
use rsne::Rsne;
use rules::{Refusal, Settings, Suites};
use suites::{Akm, GROUP_CIPHER, Group, Suite};
use units::{Seconds, Tu};

fn is_suite(suite: Suite, kind: u8) -> bool
    ensures { result ≡ is_suite kind suite }
{
    suite == Suite::Ours(kind)
}

// Whether a cipher is in the table, and the settings allow it.
#[tactic(auto, using(suites::proofs::Laws::cipher_found))]
fn is_allowed(settings: Settings, kind: u8) -> bool
    ensures { result ≡ is_allowed settings (cipher_of kind) }
{
    match suites::cipher_of(kind) {
        Some(cipher) => settings.ciphers / cipher.flag % 2 == 1,
        None => false,
    }
}

// Step 4.
fn choose_cipher(settings: Settings, pairwise: Option<Suite>) -> Result<u8, Refusal>
    ensures { result ≡ step4 settings pairwise }
{
    match pairwise {
        Some(Suite::Ours(kind)) if is_allowed(settings, kind) => Ok(kind),
        _ => Err(Refusal::PairwiseCipher),
    }
}

// Step 5.
fn choose_akm(settings: Settings, akm: Option<Suite>) -> Result<Akm, Refusal>
    ensures { result ≡ step5 settings akm }
{
    let Some(Suite::Ours(kind)) = akm else {
        return Err(Refusal::Akm);
    };
    match suites::akm_of(kind) {
        Some(akm) if akm.pmk || settings.pmkless => Ok(akm),
        _ => Err(Refusal::Akm),
    }
}

// Step 6: MFPC (bit 7) and MFPR (bit 6) set, No Pairwise (bit 1) clear.
fn is_protected(capabilities: u16) -> bool
    ensures { result ≡ is_protected capabilities }
{
    capabilities / 128 % 2 == 1 && capabilities / 64 % 2 == 1 && capabilities / 2 % 2 == 0
}

// Steps 2 to 6.
#[tactic(auto, unfolding(rules::specs::OnePeer::suite_steps))]
pub fn suite_steps(settings: Settings, format: u8, rsne: Rsne) -> Result<Suites, Refusal>
    ensures { result ≡ suite_steps settings format rsne }
{
    if format != 0 {
        return Err(Refusal::Wrapped);
    }
    if !is_suite(rsne.group, GROUP_CIPHER) || !is_suite(rsne.management, GROUP_CIPHER) {
        return Err(Refusal::GroupCipher);
    }
    let cipher = choose_cipher(settings, rsne.pairwise)?;
    let akm = choose_akm(settings, rsne.akm)?;
    if !is_protected(rsne.capabilities) {
        return Err(Refusal::Unprotected);
    }
    Ok(Suites { cipher, akm })
}

// Steps 7 to 9.
#[tactic(auto, unfolding(rules::specs::OnePeer::key_steps))]
pub fn key_steps(number: u16, key: &[u8], point: bool) -> Result<Group, Refusal>
    ensures { result ≡ key_steps number key.now point }
{
    let group = suites::group_of(number).ok_or(Refusal::Group)?;
    if !group.is_key(key) {
        return Err(Refusal::KeyForm);
    }
    if !point {
        return Err(Refusal::Point);
    }
    Ok(group)
}

// The PMKID of a number in a list.
fn pmkid_at(pmkids: &[u8], k: usize) -> [u8; 16]
    requires { 16 * k + 16 ≤ length pmkids.now }
    ensures { result ≡ take 16 (drop (16 * k) pmkids.now) }
{
    pmkids[16 * k..16 * k + 16].try_into().unwrap()
}

// Step 10: the PMKID that was chosen, or none.
#[tactic(auto, using(rules::proofs::Pmkids::that_part))]
pub fn pmkid_step(
    akm: Akm,
    cache: Cache,
    pmkids: &[u8],
    reading: Tu,
) -> Result<Option<[u8; 16]>, Refusal>
    ensures { result ≡ step10 akm cache.entry.octets.now reading pmkids.now }
{
    if akm.pmk {
        let choice = cache
            .choose(pmkids, akm.kind, reading)
            .ok_or(Refusal::Pmkid)?;
        return Ok(Some(pmkid_at(pmkids, choice.pmkid)));
    }
    if pmkids.len() == 0 {
        Ok(None)
    } else {
        Err(Refusal::Pmkid)
    }
}

// The smaller of the settings' lifetime and the frame's, if it has one.
pub fn lifetime_of(most: Seconds, asked: Option<Seconds>) -> Seconds
    ensures { result ≡ lifetime_of most asked }
{
    match asked {
        Some(asked) => most.min(asked),
        None => most,
    }
}
