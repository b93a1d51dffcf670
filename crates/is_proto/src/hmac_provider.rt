//! HMAC over SHA-1 (RFC 2104).

ghost use Rattle.std.specs.Prelude.{◌≡◌, ◌++◌, ℕ, List};
ghost use Rattle.sha1.specs.Sha1.{sha1, Holds};
ghost use Rattle.is_proto.specs.Hmac.{key_block, xor_each, hmac_sha1, IsAfter};
ghost use Rattle.is_proto.specs.Macs.{joined};

use crate::proto::Sha1HmacProvider;
use sha1::Sha1;

const BLOCK_LEN: usize = 64;

const OUTER_PAD: u8 = 0x5C;

const INNER_PAD: u8 = 0x36;

/// HMAC-SHA1 with the SHA-1 of the crate `sha1`: the provider of `IceAgent::new`. It never allocates.
#[derive(Clone, Copy, Debug, PartialEq, Eq)]
pub struct DefaultSha1HmacProvider;

impl Sha1HmacProvider for DefaultSha1HmacProvider {
    ghost mac = { λ _ key text. hmac_sha1 key text };

    fn sha1_hmac(&self, key: &[u8], payloads: &[&[u8]]) -> [u8; 20] {
        let block = block_of_key(key);
        let inner = padded_digest(&block, INNER_PAD, payloads);
        padded_digest(&block, OUTER_PAD, &[&inner])
    }

    fn sha1_hmac_kept(&self, kept: &HmacKey, key: &[u8], payloads: &[&[u8]]) -> [u8; 20] {
        kept.mac(key, payloads)
    }
}

/// The part of HMAC-SHA1 that depends only on the key: the key as a block, and the two SHA-1 states after that block is
/// xored with each pad and hashed (RFC 2104, section 4). Reusing it saves two blocks of SHA-1 per MAC. It is as secret
/// as the key.
#[derive(Drop)]
pub struct HmacKey {
    block: [u8; BLOCK_LEN],
    inner: Sha1,
    outer: Sha1,
    ghost inner_holds: { IsAfter inner 0x36 block },
    ghost outer_holds: { IsAfter outer 0x5C block },
}

impl HmacKey {
    /// Precomputes the state for this key.
    #[tactic(auto, unfolding(sha1::specs::Sha1::Holds))]
    pub fn new(key: &[u8]) -> HmacKey
        ensures { result.block ≡ key_block key.now }
    {
        let block = block_of_key(key);
        HmacKey {
            block,
            inner: padded(&block, INNER_PAD),
            outer: padded(&block, OUTER_PAD),
        }
    }

    /// Returns the digest of the inner pad followed by the payloads.
    #[tactic(auto, unfolding(sha1::specs::Sha1::Holds))]
    fn inner_digest(&self, payloads: &[&[u8]]) -> [u8; 20]
        ensures { result ≡ sha1 (xor_each 0x36 self.now.block ++ joined payloads.now) }
    {
        digest_after(copy_of(&self.inner), payloads)
    }

    /// Returns the digest of the outer pad followed by the payloads.
    #[tactic(auto, unfolding(sha1::specs::Sha1::Holds))]
    fn outer_digest(&self, payloads: &[&[u8]]) -> [u8; 20]
        ensures { result ≡ sha1 (xor_each 0x5C self.now.block ++ joined payloads.now) }
    {
        digest_after(copy_of(&self.outer), payloads)
    }

    /// Returns HMAC-SHA1 under any key. It saves work only under the key that was precomputed; for another key it does
    /// not use the precomputed state.
    pub fn mac(&self, key: &[u8], payloads: &[&[u8]]) -> [u8; 20]
        ensures { result ≡ hmac_sha1 key.now (joined payloads.now) }
    {
        let block = block_of_key(key);
        if block != self.block {
            return DefaultSha1HmacProvider.sha1_hmac(key, payloads);
        }
        let inner = self.inner_digest(payloads);
        self.outer_digest(&[&inner])
    }
}

/// A provider together with a precomputed key. It computes the same function as the provider, but need not process that
/// key again.
#[derive(Drop)]
pub struct KeptProvider<'a, H> {
    pub provider: &'a H,
    pub kept: &'a HmacKey,
}

impl<H: Sha1HmacProvider> Sha1HmacProvider for KeptProvider<'_, H> {
    ghost mac = { λ k key text. H.mac k.provider.now key text };

    fn sha1_hmac(&self, key: &[u8], payloads: &[&[u8]]) -> [u8; 20] {
        self.provider.sha1_hmac_kept(self.kept, key, payloads)
    }
}

#[tactic(auto, unfolding(crate::specs::Hmac::key_block))]
fn block_of_key(key: &[u8]) -> [u8; BLOCK_LEN]
    ensures { result ≡ key_block key.now }
{
    let mut block = [0; BLOCK_LEN];
    if key.len() > BLOCK_LEN {
        block[..20].copy_from_slice(&Sha1::digest(key));
    } else {
        block[..key.len()].copy_from_slice(key);
    }
    block
}

fn xor_each_byte(block: &[u8; BLOCK_LEN], pad: u8) -> [u8; BLOCK_LEN]
    ensures { result ≡ xor_each pad block.now }
{
    let mut bytes = *block;
    for byte in bytes.iter_mut() {
        *byte ^= pad;
    }
    bytes
}

/// Returns the SHA-1 state after the block, xored with the pad.
fn padded(block: &[u8; BLOCK_LEN], pad: u8) -> Sha1
    ensures { Holds result (xor_each pad block.now) }
{
    let mut hasher = Sha1::new();
    hasher.update(&xor_each_byte(block, pad));
    hasher
}

/// Returns a copy of the state.
fn copy_of(hashed: &Sha1) -> Sha1
    ensures { result ≡ hashed.now }
{
    match hashed.clone() {
        Ok(copy) => copy,
        Err(_) => unreachable!(),
    }
}

/// Returns the digest of what was hashed so far, followed by the pieces.
fn digest_after(mut hasher: Sha1, pieces: &[&[u8]]) -> [u8; 20]
    ensures { (m : List ℕ) → Holds hasher m → result ≡ sha1 (m ++ joined pieces.now) }
{
    for piece in pieces {
        hasher.update(piece);
    }
    hasher.finalize()
}

/// Returns the digest of the block, xored with the pad, followed by the pieces.
fn padded_digest(block: &[u8; BLOCK_LEN], pad: u8, pieces: &[&[u8]]) -> [u8; 20]
    ensures { result ≡ sha1 (xor_each pad block.now ++ joined pieces.now) }
{
    digest_after(padded(block, pad), pieces)
}
