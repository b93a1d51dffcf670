//! The long-term credentials of a TURN client (RFC 8489, section 9.2).

ghost use Rattle.std.specs.Prelude.{◌≡◌, MatchOption};
ghost use Rattle.std.specs.Option.{option_copied};
ghost use Rattle.is_turn.specs.Credentials.{long_term_key, credentials_of, new_credentials, challenged, forgotten, without_challenge, IsShort, IsTooLong};

use crate::octets::{LONGEST, Octets};
use md5::{Digest, Md5};

/// The longest USERNAME that is written.
const LONGEST_USERNAME: usize = 508;

/// Returns the key of the long-term mechanism: the MD5 digest of USERNAME, realm and password with colons between them (RFC 8489,
/// section 9.2.2).
pub fn long_term_key(username: &[u8], realm: &[u8], password: &[u8]) -> [u8; 16]
    ensures { result ≡ long_term_key username.now realm.now password.now }
{
    let mut hasher = Md5::new();
    hasher.update(username);
    hasher.update(b":");
    hasher.update(realm);
    hasher.update(b":");
    hasher.update(password);
    hasher.finalize()
}

/// What a server's last challenge made of them.
#[derive(Clone, Copy)]
pub(crate) struct Challenge {
    pub(crate) realm: Octets,
    pub(crate) nonce: Octets,
    pub(crate) key: [u8; 16],
}

/// A USERNAME and a password, and what a challenge of the server made of them. The password is forgotten once the server has shown
/// that it knows it; then the realm and the key stay, and only the nonce changes.
#[derive(Clone, Copy)]
pub struct Credentials {
    pub(crate) username: Octets,
    pub(crate) password: Option<Octets>,
    pub(crate) challenge: Option<Challenge>,
}

impl Credentials {
    /// Makes the credentials of a client that had no challenge yet. `None` if USERNAME is longer than 508 bytes, or the password
    /// longer than 763.
    pub fn new(username: &str, password: &str) -> Option<Credentials>
        ensures { MatchOption result (IsTooLong username.now password.now) (λ c. IsShort username.now password.now
            × (credentials_of c ≡ new_credentials username.now password.now)) }
    {
        if username.len() > LONGEST_USERNAME || password.len() > LONGEST {
            return None;
        }
        Some(Credentials {
            username: Octets::new(username.as_bytes()),
            password: Some(Octets::new(password.as_bytes())),
            challenge: None,
        })
    }

    /// Takes the REALM and the NONCE of a challenge: an error response 401 or 438. False, and nothing is changed, if one of them is
    /// missing or longer than 763 bytes, or if the password is forgotten and the realm is another one (RFC 8489, section 9.2.5).
    pub fn take_challenge(&mut self, realm: Option<&str>, nonce: Option<&str>) -> bool
        ensures { (credentials_of self.new, result) ≡ challenged (option_copied realm.entry) (option_copied nonce.entry) (credentials_of self.old) }
    {
        let (Some(realm), Some(nonce)) = (realm, nonce) else {
            return false;
        };
        if realm.len() > LONGEST || nonce.len() > LONGEST {
            return false;
        }
        let nonce = Octets::new(nonce.as_bytes());
        match (&self.password, &self.challenge) {
            (Some(password), _) => {
                let key = long_term_key(
                    self.username.as_slice(),
                    realm.as_bytes(),
                    password.as_slice(),
                );
                let realm = Octets::new(realm.as_bytes());
                self.challenge = Some(Challenge { realm, nonce, key });
                true
            }
            (None, Some(challenge)) => {
                if challenge.realm.as_slice() != realm.as_bytes() {
                    return false;
                }
                self.challenge = Some(Challenge {
                    nonce,
                    ..*challenge
                });
                true
            }
            (None, None) => false,
        }
    }

    /// Forgets the password: the server has signed a response with the key.
    pub fn confirm(&mut self)
        ensures { credentials_of self.new ≡ forgotten (credentials_of self.old) }
    {
        self.password = None;
    }

    /// Another server: while the password is known, the last challenge is of no use there.
    pub(crate) fn drop_challenge(&mut self)
        ensures { credentials_of self.new ≡ without_challenge (credentials_of self.old) }
    {
        if self.password.is_some() {
            self.challenge = None;
        }
    }
}
