//! The requests of a TURN client, and its Send indication, as they are written (RFC 8656, sections 7 to 12).

ghost use Rattle.std.specs.Prelude.{◌≡◌, ◌++◌, None, length, map};
ghost use Rattle.is_proto.specs.Hmac.{hmac_sha1};
ghost use Rattle.std.specs.Option.{option_copied, option_map};
ghost use Rattle.is_stun.specs.AddressView.{xor_bytes};
ghost use Rattle.is_stun.specs.RowView.{row_view};
ghost use Rattle.is_stun.specs.Writing.{row, WritesOr, rows_rejection, written_rows};
ghost use Rattle.is_turn.specs.Credentials.{credentials_of};
ghost use Rattle.is_turn.specs.Requests.{type_of, transport_in, lifetime_in, family_in, channel_in, peer_in, signer_of, signer_view, key_of, rows_in, signer_rows, request_rows, send_rows, SEND_TYPE};

use crate::credentials::Credentials;
use is_proto::{DefaultSha1HmacProvider, Sha1HmacProvider, StunError};
use is_stun::address::XorAddress;
use is_stun::stun::{AddressFamily, TransId};
use is_stun::writing::{Draft, Row, write_draft};
use std::net::SocketAddr;

// The types of the attributes (RFC 8489, section 18.3; RFC 8656, section 18).

const USERNAME: u16 = 0x0006;

const CHANNEL_NUMBER: u16 = 0x000C;

const LIFETIME: u16 = 0x000D;

const XOR_PEER_ADDRESS: u16 = 0x0012;

const DATA: u16 = 0x0013;

const REALM: u16 = 0x0014;

const NONCE: u16 = 0x0015;

const REQUESTED_ADDRESS_FAMILY: u16 = 0x0017;

const REQUESTED_TRANSPORT: u16 = 0x0019;

/// The protocol number of UDP.
const UDP: u8 = 17;

/// The type of a Send indication.
const SEND_INDICATION: u16 = 0x0016;

/// A request to a TURN server.
#[derive(Clone, Copy, Debug, PartialEq, Eq)]
pub enum Request {
    /// A relayed UDP address for so many seconds, of this family (RFC 8656, section 7.1).
    Allocate(u32, Option<AddressFamily>),
    /// So many seconds more for the allocation; 0 frees it (section 8.1).
    Refresh(u32),
    /// Packets from this IP address, whatever their port, for five minutes (section 10.1).
    CreatePermission(SocketAddr),
    /// A channel of this number to the peer, for ten minutes (section 12.1).
    ChannelBind(u16, SocketAddr),
}

impl Request {
    fn typ(&self) -> u16
        ensures { result ≡ type_of self.now }
    {
        match self {
            Request::Allocate(_, _) => 0x0003,
            Request::Refresh(_) => 0x0004,
            Request::CreatePermission(_) => 0x0008,
            Request::ChannelBind(_, _) => 0x0009,
        }
    }

    fn transport(&self) -> Option<[u8; 4]>
        ensures { result ≡ transport_in self.now }
    {
        match self {
            Request::Allocate(_, _) => Some([UDP, 0, 0, 0]),
            _ => None,
        }
    }

    fn lifetime(&self) -> Option<[u8; 4]>
        ensures { result ≡ lifetime_in self.now }
    {
        match self {
            Request::Allocate(seconds, _) => Some(seconds.to_be_bytes()),
            Request::Refresh(seconds) => Some(seconds.to_be_bytes()),
            _ => None,
        }
    }

    fn family(&self) -> Option<[u8; 4]>
        ensures { result ≡ family_in self.now }
    {
        match self {
            Request::Allocate(_, Some(AddressFamily::Ipv4)) => Some([1, 0, 0, 0]),
            Request::Allocate(_, Some(AddressFamily::Ipv6)) => Some([2, 0, 0, 0]),
            _ => None,
        }
    }

    fn channel(&self) -> Option<[u8; 4]>
        ensures { result ≡ channel_in self.now }
    {
        match self {
            Request::ChannelBind(number, _) => {
                let [high, low] = number.to_be_bytes();
                Some([high, low, 0, 0])
            }
            _ => None,
        }
    }

    fn peer(&self, id: &[u8; 12]) -> Option<XorAddress>
        ensures { option_map xor_bytes result ≡ peer_in id.now self.now }
    {
        match self {
            Request::CreatePermission(peer) => Some(XorAddress::new(*peer, id)),
            Request::ChannelBind(_, peer) => Some(XorAddress::new(*peer, id)),
            _ => None,
        }
    }
}

/// The values of a request's own attributes.
#[derive(Drop)]
struct Values {
    transport: Option<[u8; 4]>,
    lifetime: Option<[u8; 4]>,
    family: Option<[u8; 4]>,
    channel: Option<[u8; 4]>,
    peer: Option<XorAddress>,
}

impl Values {
    fn of(request: &Request, id: &[u8; 12]) -> Values
        ensures transport { result.transport ≡ transport_in request.now }
        ensures lifetime { result.lifetime ≡ lifetime_in request.now }
        ensures family { result.family ≡ family_in request.now }
        ensures channel { result.channel ≡ channel_in request.now }
        ensures peer { option_map xor_bytes result.peer ≡ peer_in id.now request.now }
    {
        Values {
            transport: request.transport(),
            lifetime: request.lifetime(),
            family: request.family(),
            channel: request.channel(),
            peer: request.peer(id),
        }
    }
}

/// Who signs a request: USERNAME, and what the last challenge made of the credentials.
#[derive(Clone, Copy)]
struct Signer<'a> {
    username: &'a [u8],
    realm: &'a [u8],
    nonce: &'a [u8],
    key: &'a [u8],
}

fn signer_of(credentials: Option<&Credentials>) -> Option<Signer<'_>>
    ensures { option_map signer_view result ≡ signer_of (option_map credentials_of (option_copied credentials.entry)) }
{
    let credentials = credentials?;
    match &credentials.challenge {
        Some(challenge) => Some(Signer {
            username: credentials.username.as_slice(),
            realm: challenge.realm.as_slice(),
            nonce: challenge.nonce.as_slice(),
            key: &challenge.key,
        }),
        None => None,
    }
}

fn array_row(code: u16, bytes: &Option<[u8; 4]>) -> Row<'_>
    ensures { row_view result ≡ row code bytes.now }
{
    Row {
        code,
        value: match bytes {
            Some(bytes) => Some(bytes.as_slice()),
            None => None,
        },
    }
}

fn peer_row(peer: &Option<XorAddress>) -> Row<'_>
    ensures { row_view result ≡ row XOR_PEER_ADDRESS (option_map xor_bytes peer.now) }
{
    Row {
        code: XOR_PEER_ADDRESS,
        value: match peer {
            Some(peer) => Some(peer.as_slice()),
            None => None,
        },
    }
}

fn text_row<'a>(code: u16, value: Option<&'a [u8]>) -> Row<'a>
    ensures { row_view result ≡ row code (option_copied value.entry) }
{
    Row { code, value }
}

fn rows_of<'a>(values: &'a Values, signer: Option<Signer<'a>>) -> [Row<'a>; 8]
    ensures { map row_view result ≡ rows_in values.now ++ signer_rows (option_map signer_view signer.entry) }
{
    let (username, realm, nonce) = match signer {
        Some(signer) => (
            Some(signer.username),
            Some(signer.realm),
            Some(signer.nonce),
        ),
        None => (None, None, None),
    };
    [
        array_row(REQUESTED_TRANSPORT, &values.transport),
        array_row(LIFETIME, &values.lifetime),
        array_row(REQUESTED_ADDRESS_FAMILY, &values.family),
        array_row(CHANNEL_NUMBER, &values.channel),
        peer_row(&values.peer),
        text_row(USERNAME, username),
        text_row(REALM, realm),
        text_row(NONCE, nonce),
    ]
}

fn key_of<'a>(signer: Option<Signer<'a>>) -> Option<&'a [u8]>
    ensures { option_copied result ≡ key_of (option_map signer_view signer.entry) }
{
    match signer {
        Some(signer) => Some(signer.key),
        None => None,
    }
}

/// Writes a request to the front of the buffer, and returns its length: its attributes; with credentials that had a challenge
/// also USERNAME, REALM and NONCE, and MESSAGE-INTEGRITY with the key; then FINGERPRINT. Flow information and scope of the peer
/// are not written, nor is SOFTWARE. `BufferTooShort`: it does not fit, and the buffer is unchanged.
pub fn write_request<H: Sha1HmacProvider>(
    request: &Request,
    id: &TransId,
    credentials: Option<&Credentials>,
    buf: &mut [u8],
    provider: &H,
) -> Result<usize, StunError>
    ensures { let signer = signer_of (option_map credentials_of (option_copied credentials.entry)) in
        WritesOr result buf.old buf.new (rows_rejection (key_of signer) (length buf.old) (request_rows id.now.0 request.now signer))
        (written_rows (H.mac provider.now) (key_of signer) (type_of request.now) id.now.0 (request_rows id.now.0 request.now signer)) }
{
    let values = Values::of(request, &id.0);
    let signer = signer_of(credentials);
    let rows = rows_of(&values, signer);
    let draft = Draft {
        typ: request.typ(),
        id: &id.0,
        rows: &rows,
    };
    write_draft(&draft, key_of(signer), buf, provider)
}

/// Writes a Send indication with data for a peer to the front of the buffer (RFC 8656, section 11.1), and returns its length.
/// `MessageTooLong`: the data is too long for a message; `BufferTooShort`: it does not fit. Both leave the buffer unchanged.
pub fn write_send(
    peer: SocketAddr,
    contents: &[u8],
    id: &TransId,
    buf: &mut [u8],
) -> Result<usize, StunError>
    ensures { WritesOr result buf.old buf.new (rows_rejection None (length buf.old) (send_rows id.now.0 peer contents.now))
        (written_rows hmac_sha1 None SEND_TYPE id.now.0 (send_rows id.now.0 peer contents.now)) }
{
    let address = Some(XorAddress::new(peer, &id.0));
    let rows = [peer_row(&address), text_row(DATA, Some(contents))];
    let draft = Draft {
        typ: SEND_INDICATION,
        id: &id.0,
        rows: &rows,
    };
    write_draft(&draft, None, buf, &DefaultSha1HmacProvider)
}
