//! Writing a connectivity check and finding its path (RFC 8445, section 7.2); the rules: `is_rules::checking`.

ghost use Rattle.std.specs.Prelude.{◌≡◌, ◌<◌, Some, None, IfSome, length};
ghost use Rattle.is_stun.specs.Theorems.{IsClass, IsChannelNumber, IsPut, plain};
ghost use Rattle.is_stun.specs.MessageView.{message_view};
ghost use Rattle.is_stun.specs.Writing.{written, rejection};
ghost use Rattle.is_pair.specs.Pairs.{PairRecord};
ghost use Rattle.is_rules.specs.declared.credentials.IceCreds as model;
ghost use Rattle.is_rules.specs.Fitting.{CHECK_ROOM};
ghost use Rattle.is_agent.specs.View.{record_of};
ghost use Rattle.is_rules.specs.Due.{Drafts};
ghost use Rattle.is_agent.specs.Room.{HasUsername};
ghost use Rattle.is_rules.specs.Sending.{path_between};
ghost use Rattle.is_rules.specs.Checking.{check_message};

use crate::agent::Agent;
use is_candidate::LocalPreference;
use is_pair::pair::CandidatePair;
use is_proto::Sha1HmacProvider;
use is_rules::checking::Draft;
use is_rules::emitted::Path;
use is_rules::places::{check_priority_at, path_at};
use is_rules::reply::write_signed;
use is_stun::stun::{StunMessage, TransId};
use is_stun::theorems::checks_fit;

impl<H: Sha1HmacProvider + Drop, P: LocalPreference> Agent<H, P> {
    /// The path from the local candidate's base to the remote candidate's address.
    pub(crate) fn path_between(&self, l: usize, r: usize) -> Path
        requires local { l < length self.now.local.items }
        requires remote { r < length self.now.remote.items }
        ensures { result ≡ path_between (record_of self.now) l r }
    {
        path_at(&self.local, &self.remote, l, r)
    }

    pub(crate) fn path_of(&self, pair: &CandidatePair) -> Path
        requires local { pair.now.local < length self.now.local.items }
        requires remote { pair.now.remote < length self.now.remote.items }
        ensures { result ≡ path_between (record_of self.now) pair.now.local pair.now.remote }
    {
        self.path_between(pair.local_idx(), pair.remote_idx())
    }

    /// The content of a check of the pair.
    pub(crate) fn draft(&self, pair: &CandidatePair) -> Draft
        requires local { pair.now.local < length self.now.local.items }
        requires remote { pair.now.remote < length self.now.remote.items }
        ensures { Drafts (record_of self.now) pair.now result }
    {
        Draft {
            path: self.path_of(pair),
            priority: check_priority_at(&self.local, pair.local_idx()),
            nominated: self.stays_nominated(pair),
            nomination: self.nomination_of(pair),
        }
    }

    /// Writes a check, signed with the peer's password, to the front of the buffer, and truncates the buffer to its length.
    fn write_check(&self, contents: &mut Vec<u8>, check: StunMessage<'_>, password: &str)
        requires fits { rejection (Some password.now) (length contents.old.items) (message_view check) ≡ None }
        requires class { IsClass (message_view check).class }
        requires channel { IfSome (message_view check).attributes.channel_number IsChannelNumber }
        ensures written { contents.new.items ≡ written (H.mac self.now.provider) (Some password.now) (message_view check.entry) }
        ensures put { IsPut (written (H.mac self.now.provider) (Some password.now) (message_view check.entry)) (plain (message_view check.entry)) }
    {
        write_signed(contents, check, password, &self.by_remote_key());
    }

    /// The bytes of the check, written to this buffer.
    pub(crate) fn check_bytes(&self, mut contents: Vec<u8>, id: TransId, draft: Draft) -> Vec<u8>
        requires username { HasUsername self.now }
        requires contents { IfSome self.now.remote_creds (λ _. length contents.items ≡ CHECK_ROOM) }
        ensures put { (peer : model.IceCreds) (p : PairRecord) → self.now.remote_creds ≡ Some peer → Drafts (record_of self.now) p draft
            → IsPut (written (H.mac self.now.provider) (Some peer.pass) (check_message (record_of self.now) peer p id.0))
            (check_message (record_of self.now) peer p id.0) }
        ensures written { (peer : model.IceCreds) (p : PairRecord) → self.now.remote_creds ≡ Some peer → Drafts (record_of self.now) p draft
            → result.items ≡ written (H.mac self.now.provider) (Some peer.pass) (check_message (record_of self.now) peer p id.0) }
    {
        if let Some(peer) = &self.remote_creds {
            let username = self.username.as_str();
            let nominates = self.controlling && draft.nominated;
            checks_fit();
            let request = StunMessage::binding_request(
                username,
                id,
                self.controlling,
                self.tie_breaker,
                draft.priority,
                nominates,
            )
            .with_nomination(draft.nomination);
            self.write_check(&mut contents, request, peer.pass.as_str());
        }
        contents
    }
}
