//! The keys after the kind. The last one of equal keys counts, and each value of a known key is checked.
ghost use Rattle.std.specs.Prelude.{◌≡◌, slice_get};
ghost use Rattle.std.specs.Option.{option_copied};
ghost use Rattle.is_candidate.specs.Lines.{ReadsKey, ReadsKeys, no_keys};
ghost use Rattle.is_candidate.specs.Scanned.{texts, keys_of, keys_answer};

use super::fault::Fault;
use super::words::small_number;
use is_proto::TcpType;
use std::net::IpAddr;

/// The values of the known keys.
#[derive(Clone, Copy, Debug, Default, PartialEq, Eq)]
pub(crate) struct Keys<'a> {
    pub(crate) raddr: Option<IpAddr>,
    pub(crate) rport: Option<u16>,
    pub(crate) tcptype: Option<TcpType>,
    pub(crate) ufrag: Option<&'a str>,
}

/// Adds one key, whose value may be missing. It is a separate function, so that lines without keys cost nothing for it.
#[inline(never)]
fn with_key<'a>(keys: Keys<'a>, key: &str, value: Option<&'a str>) -> Result<Keys<'a>, Fault<'a>>
    ensures { ReadsKey key.now (option_copied value.entry) (keys_of keys.entry) (keys_answer result) }
{
    if key == "raddr" {
        let value = value.ok_or(Fault::MissingRaddr)?;
        match value.parse::<IpAddr>() {
            Ok(raddr) => Ok(Keys {
                raddr: Some(raddr),
                ..keys
            }),
            Err(_) => Err(Fault::BadRaddr),
        }
    } else if key == "rport" {
        let value = value.ok_or(Fault::MissingRport)?;
        match small_number(value) {
            Some(rport) => Ok(Keys {
                rport: Some(rport),
                ..keys
            }),
            None => Err(Fault::BadRport),
        }
    } else if key == "tcptype" {
        let value = value.ok_or(Fault::MissingTcptype)?;
        match TcpType::from_text(value) {
            Some(tcptype) => Ok(Keys {
                tcptype: Some(tcptype),
                ..keys
            }),
            None => Err(Fault::BadTcptype),
        }
    } else if key == "ufrag" {
        let value = value.ok_or(Fault::MissingUfrag)?;
        Ok(Keys {
            ufrag: Some(value),
            ..keys
        })
    } else {
        Ok(keys)
    }
}

/// Reads all the keys, or returns the first fault.
pub(crate) fn read_keys<'a>(words: &[&'a str]) -> Result<Keys<'a>, Fault<'a>>
    ensures { ReadsKeys no_keys (texts words.now) (keys_answer result) }
{
    let mut keys = Keys::default();
    let mut at = 0;
    while at < words.len() {
        let value = word_at(words, at + 1);
        match with_key(keys, words[at], value) {
            Ok(next) => keys = next,
            Err(fault) => return Err(fault),
        }
        at += 2;
    }
    Ok(keys)
}

fn word_at<'a>(words: &[&'a str], at: usize) -> Option<&'a str>
    ensures { result ≡ slice_get words.now at }
{
    words.get(at).copied()
}
