//! HMAC-SHA1 against published vectors.

use is_proto::{DefaultSha1HmacProvider, HmacKey, KeptProvider, Sha1HmacProvider};
use std::alloc::Global;
use std::fmt;
use std::fmt::Write;

const HMAC: DefaultSha1HmacProvider = DefaultSha1HmacProvider;

/// Whether the digest that the provider returns is this one, in hexadecimal.
fn is_mac<P: Sha1HmacProvider>(
    alloc: Global,
    provider: &P,
    key: &[u8],
    payloads: &[&[u8]],
    want: &str,
) -> bool {
    match hexadecimal(alloc, provider.sha1_hmac(key, payloads)) {
        Ok(text) => text.as_str() == want,
        Err(_) => false,
    }
}

fn hexadecimal(alloc: Global, digest: [u8; 20]) -> Result<String, fmt::Error> {
    let mut text = String::new(alloc);
    for byte in digest {
        write!(text, "{byte:02x}")?;
    }
    Ok(text)
}

/// The bytes from 1 to 25.
const COUNTING: [u8; 25] = [
    1, 2, 3, 4, 5, 6, 7, 8, 9, 10, 11, 12, 13, 14, 15, 16, 17, 18, 19, 20, 21, 22, 23, 24, 25,
];

/// A key, a text and its digest.
static RFC_2202: [(&[u8], &[u8], &str); 7] = [
    (
        &[0x0b; 20],
        b"Hi There",
        "b617318655057264e28bc0b6fb378c8ef146be00",
    ),
    (
        b"Jefe",
        b"what do ya want for nothing?",
        "effcdf6ae5eb2fa2d27416d5f184df9c259a7c79",
    ),
    (
        &[0xaa; 20],
        &[0xdd; 50],
        "125d7342b9ac11cd91a39af48aa17b4f63f175d3",
    ),
    (
        &COUNTING,
        &[0xcd; 50],
        "4c9007f4026250c6bc8414f9bf50c86c2d7235da",
    ),
    (
        &[0x0c; 20],
        b"Test With Truncation",
        "4c1a03424b55e07fe7f27be1d58bb9324a9a5a04",
    ),
    (
        &[0xaa; 80],
        b"Test Using Larger Than Block-Size Key - Hash Key First",
        "aa4ae5e15272d00e95705637ce8a3b55ed402112",
    ),
    (
        &[0xaa; 80],
        b"Test Using Larger Than Block-Size Key and Larger Than One Block-Size Data",
        "e8e99d0f45237d786d6bbaa7965c7808bbff1a91",
    ),
];

/// RFC 2202, section 3.
#[test]
fn test_cases_of_rfc_2202(rt: HostRuntime) {
    for (key, text, want) in &RFC_2202 {
        assert!(rt; is_mac(rt.alloc(), &HMAC, key, &[*text], want));
    }
}

/// A key as long as a block is used as it is. A key that is one byte longer is hashed (values of Python's `hmac`).
#[test]
fn keys_about_the_length_of_a_block(rt: HostRuntime) {
    let block = "e83ee1c362c86cc004df4f912a641c1bd844f36c";
    assert!(rt; is_mac(rt.alloc(), &HMAC, &[0xaa; 64], &[b"Hi There"], block));
    let longer = "5c0fb63dc6aea0bed8fa2f8ea120a144e15cbd50";
    assert!(rt; is_mac(rt.alloc(), &HMAC, &[0xaa; 65], &[b"Hi There"], longer));
    let nothing = "fbdb1d1b18aa6c08324b7d64b71fb76370690e1d";
    assert!(rt; is_mac(rt.alloc(), &HMAC, b"", &[], nothing));
}

/// It makes no difference how a text is split.
#[test]
fn payloads_are_joined(rt: HostRuntime) {
    let parts: [&[u8]; 4] = [b"what do ", b"ya want", b"", b" for nothing?"];
    let want = "effcdf6ae5eb2fa2d27416d5f184df9c259a7c79";
    assert!(rt; is_mac(rt.alloc(), &HMAC, b"Jefe", &parts, want));
}

const SHORT: &[u8] = b"Jefe";

const LONG: &[u8] = &[0xaa; 80];

/// Of those, one with a short key and one with a long key.
static KEPT: [(&[u8], &[u8], &str); 2] = [
    (
        SHORT,
        b"what do ya want for nothing?",
        "effcdf6ae5eb2fa2d27416d5f184df9c259a7c79",
    ),
    (
        LONG,
        b"Test Using Larger Than Block-Size Key and Larger Than One Block-Size Data",
        "e8e99d0f45237d786d6bbaa7965c7808bbff1a91",
    ),
];

/// RFC 2202, section 3, cases 2 and 7: the stored state of a key is used for that key only, not for another one.
#[test]
fn kept_keys(rt: HostRuntime) {
    let of_short = KeptProvider {
        provider: &HMAC,
        kept: &HmacKey::new(SHORT),
    };
    let of_long = KeptProvider {
        provider: &HMAC,
        kept: &HmacKey::new(LONG),
    };
    for (key, text, want) in &KEPT {
        assert!(rt;
            is_mac(rt.alloc(), &of_short, key, &[*text], want)
                && is_mac(rt.alloc(), &of_long, key, &[*text], want)
        );
    }
}
