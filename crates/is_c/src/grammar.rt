//! The grammar of the texts that agents signal (RFC 8839, sections 5.1 and 5.4). An agent takes any text.

ghost use Rattle.std.specs.Prelude.{◌≡◌};
ghost use Rattle.std.specs.List.{list_all};
ghost use Rattle.is_c_calls.specs.Codes.{found_code};
ghost use Rattle.is_c.specs.Grammar.{is_ice_char, is_token, is_in_grammar};

use crate::codes;

/// Whether the byte is a letter, a digit, '+' or '/'.
fn is_ice_char(byte: u8) -> bool
    ensures { result ≡ is_ice_char byte }
{
    (byte >= b'A' && byte <= b'Z')
        || (byte >= b'a' && byte <= b'z')
        || (byte >= b'0' && byte <= b'9')
        || byte == b'+'
        || byte == b'/'
}

fn has_ice_chars(text: &[u8]) -> bool
    ensures { result ≡ list_all is_ice_char text.now }
{
    text.iter().all(|byte| is_ice_char(*byte))
}

/// Whether the text has so many bytes, each a letter, a digit, '+' or '/'.
fn is_token(least: usize, most: usize, text: &[u8]) -> bool
    ensures { result ≡ is_token least most text.now }
{
    text.len() >= least && text.len() <= most && has_ice_chars(text)
}

fn is_in_grammar(kind: u8, text: &[u8]) -> bool
    ensures { result ≡ is_in_grammar kind text.now }
{
    match kind {
        0 => is_token(4, 256, text),
        1 => is_token(22, 256, text),
        2 => is_token(1, 32, text),
        _ => false,
    }
}

/// Whether a text is in the grammar of signaling, as a username fragment (0), a password (1) or a foundation (2). NOTHING: it is not.
#[unsafe(no_mangle)]
pub extern "C" fn is_ice_check_text(kind: u8, text: &[u8]) -> i32
    ensures { result ≡ found_code (is_in_grammar kind text.now) }
{
    codes::found_code(is_in_grammar(kind, text))
}
