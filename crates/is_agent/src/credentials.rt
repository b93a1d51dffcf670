//! Reading and setting the credentials of both agents (RFC 8445, section 5.3); the rules: `is_rules::credentials`.

ghost use Rattle.std.specs.Prelude.{◌≡◌, ◌<◌};
ghost use Rattle.std.specs.Option.{option_copied};
ghost use Rattle.is_rules.specs.Fitting.{are_too_long};

use crate::agent::Agent;
use is_candidate::LocalPreference;
use is_proto::{HmacKey, IceError, KeptProvider, Sha1HmacProvider};
use is_rules::credentials::{IceCreds, are_too_long};

impl<H: Sha1HmacProvider + Drop, P: LocalPreference> Agent<H, P> {
    ghost use Rattle.is_agent.specs.View.{record_of};
    ghost use Rattle.is_rules.specs.Credentials.{SetsLocal, SetsRemote};

    /// The agent's own credentials: the peer addresses its requests to them, and the agent signs its responses with them.
    pub fn local_credentials(&self) -> &IceCreds
        ensures { result.now ≡ (record_of self.now).local_creds }
    {
        &self.local_creds
    }

    /// The peer's credentials, if they are known.
    pub fn remote_credentials(&self) -> Option<&IceCreds>
        ensures { option_copied result ≡ (record_of self.now).remote_creds }
    {
        self.remote_creds.as_ref()
    }

    /// The provider with the prepared key of the agent's own password: it signs responses and verifies requests.
    pub(crate) fn by_local_key(&self) -> KeptProvider<'_, H>
        ensures { H.mac result.provider.now ≡ H.mac self.now.provider }
    {
        KeptProvider {
            provider: &self.provider,
            kept: &self.local_key,
        }
    }

    /// The provider with the prepared key of the peer's password: it signs checks and verifies the responses to them.
    pub(crate) fn by_remote_key(&self) -> KeptProvider<'_, H>
        ensures { H.mac result.provider.now ≡ H.mac self.now.provider }
    {
        KeptProvider {
            provider: &self.provider,
            kept: &self.remote_key,
        }
    }

    /// Sets the agent's own credentials. They are in use from now on; candidates keep their username fragments.
    ///
    /// Fails with `CredentialsTooLong` if both username fragments and a colon are longer than 508 bytes.
    pub fn set_local_credentials(&mut self, creds: IceCreds) -> Result<(), IceError>
        ensures { SetsLocal (record_of self.old) creds result (record_of self.new) }
    {
        if are_too_long(&creds, &self.remote_creds) {
            return Err(IceError::CredentialsTooLong);
        }
        self.local_key = HmacKey::new(creds.pass.as_str().as_bytes());
        self.local_creds = creds;
        Ok(())
    }

    /// Sets the peer's credentials, as received by signaling. They are in use from now on.
    ///
    /// Fails with `CredentialsTooLong` if both username fragments and a colon are longer than 508 bytes.
    pub fn set_remote_credentials(&mut self, creds: IceCreds) -> Result<(), IceError>
        ensures { SetsRemote (record_of self.old) creds result (record_of self.new) }
    {
        let key = HmacKey::new(creds.pass.as_str().as_bytes());
        let creds = Some(creds);
        if are_too_long(&self.local_creds, &creds) {
            return Err(IceError::CredentialsTooLong);
        }
        self.remote_key = key;
        self.remote_creds = creds;
        Ok(())
    }
}
