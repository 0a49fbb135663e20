//! Writes a packet of any kind from its arguments.

ghost use Rattle.std.specs.Prelude.{◌≡◌, ◌+◌, ◌-◌, ◌^◌, ◌<◌, ◌≤◌, ◌↔◌, ◌++◌, [], ◌∷◌, false, map, min, length, IsTrue, OnOk, OnErr};
ghost use Rattle.std.specs.Prelude.{vec_len, vec_capacity};
ghost use Rattle.std.specs.List.{list_any, flat_map, join_with_byte};
ghost use Rattle.std.specs.Int.{w32, to_be_bytes};
ghost use Rattle.gm_packet.specs.Packets.{has_nul, LackNul, Fits, AppendsPacket};

use crate::arguments::has_nul;
use std::alloc::AllocError;

/// How many bytes the arguments after the first take, each after its NUL; at most the greatest `u64`.
#[inline(always)]
fn tail_len(rest: &[&[u8]]) -> u64
    ensures { result ≡ min (length (flat_map (λ text. 0 ∷ text.now) rest.now)) (2 ^ 64 - 1) }
{
    let mut len: u64 = 0;
    for text in rest {
        len = len.saturating_add(1).saturating_add(text.len() as u64);
    }
    len
}

/// How many bytes the arguments take as data; at most the greatest `u64`.
#[inline(always)]
pub(crate) fn data_len(texts: &[&[u8]]) -> u64
    ensures { result ≡ min (length (join_with_byte 0 (map (λ text. text.now) texts.now))) (2 ^ 64 - 1) }
{
    match texts {
        [] => 0,
        [first, rest @ ..] => tail_len(rest).saturating_add(first.len() as u64),
    }
}

/// Whether one of the arguments holds NUL.
fn any_nul(texts: &[&[u8]]) -> bool
    ensures { result ≡ list_any (λ text. has_nul text.now) texts.now }
{
    texts.iter().any(|text| has_nul(text))
}

/// Whether no argument but the last holds NUL.
fn separable(texts: &[&[u8]]) -> bool
    ensures { IsTrue result ↔ LackNul (length texts.now - 1) (map (λ text. text.now) texts.now) }
{
    match texts {
        [] => true,
        [start @ .., _] => !any_nul(start),
    }
}

/// Whether a packet can carry the arguments.
pub(crate) fn fits(texts: &[&[u8]]) -> bool
    ensures { IsTrue result ↔ Fits (map (λ text. text.now) texts.now) }
{
    separable(texts) && data_len(texts) <= u64::from(u32::MAX)
}

/// The twelve bytes with which a packet begins.
#[inline(always)]
fn header(magic: &[u8; 4], kind: u32, size: u32) -> [u8; 12]
    ensures { result ≡ magic.now ++ to_be_bytes w32 kind ++ to_be_bytes w32 size }
{
    let [m0, m1, m2, m3] = *magic;
    let [k0, k1, k2, k3] = kind.to_be_bytes();
    let [s0, s1, s2, s3] = size.to_be_bytes();
    [m0, m1, m2, m3, k0, k1, k2, k3, s0, s1, s2, s3]
}

/// Appends if there is room.
#[inline(always)]
fn put(out: &mut Vec<u8>, bytes: &[u8])
    requires { vec_len out.old + length bytes.now ≤ vec_capacity out.old }
    ensures items { out.new.items ≡ out.old.items ++ bytes.now }
    ensures len { vec_len out.new ≡ vec_len out.old + length bytes.now }
    ensures capacity { vec_capacity out.old ≤ vec_capacity out.new }
{
    out.extend_from_slice(bytes).unwrap();
}

/// Appends the arguments after the first, each after its NUL, if there is room.
#[inline(always)]
fn put_tail(out: &mut Vec<u8>, rest: &[&[u8]])
    requires { vec_len out.old + length (flat_map (λ text. 0 ∷ text.now) rest.now) ≤ vec_capacity out.old }
    ensures items { out.new.items ≡ out.old.items ++ flat_map (λ text. 0 ∷ text.now) rest.now }
{
    for text in rest {
        out.push_reserved(0);
        put(out, text);
    }
}

/// Appends the data that the arguments spell, if there is room.
#[inline(always)]
fn put_data(out: &mut Vec<u8>, texts: &[&[u8]])
    requires { vec_len out.old + length (join_with_byte 0 (map (λ text. text.now) texts.now)) ≤ vec_capacity out.old }
    ensures items { out.new.items ≡ out.old.items ++ join_with_byte 0 (map (λ text. text.now) texts.now) }
{
    match texts {
        [] => {}
        [first, rest @ ..] => {
            put(out, first);
            put_tail(out, rest);
        }
    }
}

/// Appends the packet of this type with these arguments, or leaves `out` as it was if there is no room
/// for all of it and no memory for more.
#[inline(always)]
fn put_packet(
    out: &mut Vec<u8>,
    magic: &[u8; 4],
    kind: u32,
    texts: &[&[u8]],
) -> Result<(), AllocError>
    requires { length (join_with_byte 0 (map (λ text. text.now) texts.now)) < 2 ^ 32 }
    ensures { AppendsPacket magic.now kind (map (λ text. text.now) texts.now) result out.old out.new }
{
    let size = data_len(texts) as u32;
    out.reserve(12 + size as usize)?;
    put(out, &header(magic, kind, size));
    put_data(out, texts);
    Ok(())
}

/// As `put_packet`, in which the number of arguments is then known: no loop is left of it.
#[inline(always)]
pub(crate) fn put_texts(
    out: &mut Vec<u8>,
    magic: &[u8; 4],
    kind: u32,
    texts: &[&[u8]],
) -> Result<(), AllocError>
    requires { length (join_with_byte 0 (map (λ text. text.now) texts.now)) < 2 ^ 32 }
    ensures { AppendsPacket magic.now kind (map (λ text. text.now) texts.now) result out.old out.new }
{
    match *texts {
        [] => put_packet(out, magic, kind, &[]),
        [a] => put_packet(out, magic, kind, &[a]),
        [a, b] => put_packet(out, magic, kind, &[a, b]),
        [a, b, c] => put_packet(out, magic, kind, &[a, b, c]),
        [a, b, c, d] => put_packet(out, magic, kind, &[a, b, c, d]),
        [a, b, c, d, e] => put_packet(out, magic, kind, &[a, b, c, d, e]),
        _ => put_packet(out, magic, kind, texts),
    }
}
