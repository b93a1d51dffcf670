//! ChannelData, as it is written (RFC 8656, section 12.5). Over UDP it has no padding.

ghost use Rattle.std.specs.Prelude.{◌≡◌, length};
ghost use Rattle.is_stun.specs.ChannelData.{channel_data};
ghost use Rattle.is_stun.specs.Writing.{WritesOr};
ghost use Rattle.is_turn.specs.Relaying.{channel_rejection};

use is_proto::StunError;
use is_stun::channel_data::channel_header;

/// The longest data.
const LONGEST: usize = 65535;

/// Writes data for the peer of a channel to the front of the buffer, and returns its length.
pub(crate) fn write_channel_data(
    number: u16,
    contents: &[u8],
    buf: &mut [u8],
) -> Result<usize, StunError>
    ensures { WritesOr result buf.old buf.new (channel_rejection (length contents.now) (length buf.old)) (channel_data number contents.now) }
{
    let len = contents.len();
    if len > LONGEST {
        return Err(StunError::ValueTooLong);
    }
    if buf.len() < 4 + len {
        return Err(StunError::BufferTooShort);
    }
    let header = channel_header(number, len as u16);
    buf[..4].copy_from_slice(&header);
    buf[4..4 + len].copy_from_slice(contents);
    Ok(4 + len)
}
