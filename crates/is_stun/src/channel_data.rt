//! ChannelData (RFC 8656, section 12.4): how data of a peer with a channel is sent, with four bytes before it.

ghost use Rattle.std.specs.Prelude.{◌≡◌};
ghost use Rattle.std.specs.Option.{option_map};
ghost use Rattle.is_stun.specs.ChannelData.{channel_data_of, channel_header};

/// The lowest number of a channel (RFC 8656, section 12).
const FIRST_CHANNEL: u16 = 0x4000;

/// The highest number of a channel.
const LAST_CHANNEL: u16 = 0x4FFF;

/// Reads ChannelData: the number of the channel, and the data. `None` if the bytes are none: fewer than four, a number outside of
/// 0x4000 to 0x4FFF, or a length of more bytes than follow. Bytes after the data are padding, and ignored.
#[tactic(auto, unfolding(crate::specs::ChannelData::channel_data_of))]
pub fn read_channel_data(bytes: &[u8]) -> Option<(u16, &[u8])>
    ensures { option_map (λ read. (read.0, read.1.now)) result ≡ channel_data_of bytes.now }
{
    let [n0, n1, l0, l1, rest @ ..] = bytes else {
        return None;
    };
    let number = u16::from_be_bytes([*n0, *n1]);
    let len = u16::from_be_bytes([*l0, *l1]) as usize;
    if number >= FIRST_CHANNEL && number <= LAST_CHANNEL && len <= rest.len() {
        Some((number, &rest[..len]))
    } else {
        None
    }
}

/// Returns the four bytes before data of this length. Over UDP the data needs no padding.
pub fn channel_header(number: u16, len: u16) -> [u8; 4]
    ensures { result ≡ channel_header number len }
{
    let [n0, n1] = number.to_be_bytes();
    let [l0, l1] = len.to_be_bytes();
    [n0, n1, l0, l1]
}
