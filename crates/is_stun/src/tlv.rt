//! The attributes of a message, as encoded in its bytes.

ghost use Rattle.std.specs.Prelude.{◌≡◌, ◌+◌, ◌<◌, ◌^◌, length};

use std::iter::Iterator;

/// One attribute, of any type.
#[derive(Clone, Copy)]
pub struct Tlv<'a> {
    pub code: u16,
    /// The offset of the attribute after the header.
    pub place: usize,
    /// The length that it declares.
    pub len: usize,
    /// As many bytes as its length declares, or all that are left.
    pub value: &'a [u8],
}

/// The attributes of a body from left to right, up to the first that declares more bytes than are left.
#[derive(Drop)]
pub struct Tlvs<'a> {
    place: usize,
    rest: &'a [u8],
    ghost in_range: { place + length rest.now < 2 ^ 64 },
}

impl<'a> Tlvs<'a> {
    ghost use Rattle.is_stun.specs.Tlv.{tlvs_of};
    ghost use Rattle.is_stun.specs.TlvView.{tlvs_left};

    pub fn new(body: &'a [u8]) -> Tlvs<'a>
        ensures { tlvs_left result ≡ tlvs_of body.now }
    {
        Tlvs {
            place: 0,
            rest: body,
        }
    }
}

impl<'a> Iterator for Tlvs<'a> {
    ghost use Rattle.std.specs.Iterator.{YieldsFirstBy, item_count};
    ghost use Rattle.is_stun.specs.TlvView.{tlv_view, tlvs_left};

    type Item = Tlv<'a>;

    ghost next_gives = { YieldsFirstBy tlv_view tlvs_left };

    ghost remaining = { item_count tlvs_left };

    fn next(&mut self) -> Option<Tlv<'a>> {
        let [c0, c1, l0, l1, rest @ ..] = self.rest else {
            return None;
        };
        let place = self.place;
        let code = u16::from_be_bytes([*c0, *c1]);
        let len = u16::from_be_bytes([*l0, *l1]) as usize;
        let value = &rest[..len.min(rest.len())];
        let following = ((len + 3) / 4 * 4).min(rest.len());
        self.place = place + 4 + following;
        self.rest = &rest[following..];
        Some(Tlv {
            code,
            place,
            len,
            value,
        })
    }
}
