//! Random words: which are drawn, and that no others are. The generator's first words are those of its published
//! example.

use super::making::generator;
use super::step::Call::*;
use super::step::Emitted::*;
use super::step::Setting;
use super::step::Start::*;
use super::step::Step::*;
use super::story::{Story, play};
use super::*;
use rand_core::Rng;

#[test]
fn words_are_drawn(rt: HostRuntime) -> Result<(), Fail> {
    play(rt.alloc(), &STORIES)
}

/// The bytes b7025ca109f4477b30331dba: the first three words, each least byte first.
const ID: TransId = TransId([
    0xb7, 0x02, 0x5c, 0xa1, 0x09, 0xf4, 0x47, 0x7b, 0x30, 0x33, 0x1d, 0xba,
]);

const STORIES: [Story; 1] = [Story(
    "a_check_draws_its_id_and_nothing_else_draws",
    &[
        Begin(Paired),
        Set(Setting::Published),
        Does(Check(0)),
        Emits(Id(ID)),
        Does(Timeout(249)),
        Emits(NoPacket),
        Emits(Draws(0x83d2f293)),
    ],
)];

/// The credentials have this username fragment and password.
fn are(creds: &IceCreds, ufrag: &str, pass: &str) -> bool {
    creds.ufrag.as_str() == ufrag && creds.pass.as_str() == pass
}

#[test]
fn credentials_are_the_low_six_bits_of_the_bytes(rt: HostRuntime) -> Result<(), Fail> {
    let mut rng = generator();
    let creds = IceCreds::new(rt.alloc(), &mut rng)?;
    assert!(rt; are(&creds, "3CchJ0H7wzd6TySD", "L4k/ugtLtjG/t/vBawfmQL"));
    // four words and six: 16 bytes and 22
    assert_eq!(rt; rng.next_u32(), 0x32db86fe);
    Ok(())
}
