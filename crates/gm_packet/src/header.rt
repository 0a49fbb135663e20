//! The twelve bytes with which a packet begins.

ghost use Rattle.std.specs.Prelude.{◌≡◌, ◌≢◌, ◌++◌, take, IfOk, OnErr};
ghost use Rattle.std.specs.Int.{w32, to_be_bytes};
ghost use Rattle.gm_packet.specs.Packets.{request_magic};

/// The first four bytes of a packet to the server.
pub const REQUEST_MAGIC: [u8; 4] = *b"\0REQ";

/// The first four bytes of a packet from the server.
pub const RESPONSE_MAGIC: [u8; 4] = *b"\0RES";

/// The header of a packet, without its magic.
#[derive(Clone, Copy, Debug, PartialEq, Eq)]
pub struct Header {
    /// The packet type.
    pub kind: u32,
    /// How many bytes of data follow.
    pub size: u32,
}

/// The bytes don't begin with the magic of a request.
#[derive(Clone, Copy, Debug, PartialEq, Eq)]
pub struct BadMagic;

/// Reads the header of a request: the magic `\0REQ`, then the type and the size, each four bytes with
/// the highest first (the Gearman PROTOCOL document, "Binary Packet"). `BadMagic` is returned exactly
/// if the first four bytes differ from the magic.
pub fn read_header(bytes: &[u8; 12]) -> Result<Header, BadMagic>
    ensures found { IfOk result (λ header.
        bytes.now ≡ request_magic ++ to_be_bytes w32 header.kind ++ to_be_bytes w32 header.size) }
    ensures refused { OnErr result (take 4 bytes.now ≢ request_magic) }
{
    let [m0, m1, m2, m3, k0, k1, k2, k3, s0, s1, s2, s3] = *bytes;
    if [m0, m1, m2, m3] != REQUEST_MAGIC {
        return Err(BadMagic);
    }
    Ok(Header {
        kind: u32::from_be_bytes([k0, k1, k2, k3]),
        size: u32::from_be_bytes([s0, s1, s2, s3]),
    })
}
