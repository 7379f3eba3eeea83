// Ring elements, ternary polynomials and headers of records as bytes: document 01, "Bytes".
// Every function takes bytes and buffers of any length. A decoder counts missing bytes as zeros; an encoder writes at the front of
// its buffer, and leaves a buffer that is too short as it came. Nothing here branches on a secret coefficient or indexes by one. What writes
// words, codes or bytes does so by index: of what a zip of mutable iterators has written, the library's contracts say nothing.
#![tactic(auto)]

ghost use Rattle.std.specs.Prelude.{◌≡◌, [], ◌∷◌, ◌+◌, ◌*◌, ◌<◌, get_or};
ghost use Rattle.ring.specs.Ring.{q};
ghost use Rattle.encoding.specs.Words.{element_of, first_unreduced, element_bytes};
ghost use Rattle.encoding.specs.Codes.{coefficient_of, code_of, packed_of, first_invalid, ternary_of, first_invalid_code, ternary_bytes};
ghost use Rattle.encoding.specs.Header.{has_mark, version_of, header};
ghost use Rattle.encoding.specs.Buffers.{put_front};

use modq::Q;
use ntt::{DEGREE, Element};

// The bytes of an element, of a ternary polynomial, of a mark, and of a header, which is a mark and a version.
pub const ELEMENT_LENGTH: usize = 2 * DEGREE;

pub const TERNARY_LENGTH: usize = DEGREE / 4;

pub const MARK_LENGTH: usize = 3;

pub const HEADER_LENGTH: usize = MARK_LENGTH + 2;

// The coefficient - 1.
const MINUS_ONE: u16 = Q - 1;

// ---- ring elements

// The word of two bytes.
pub fn word(low: u8, high: u8) -> u16
    ensures { result ≡ low + 256 * high }
{
    u16::from_le_bytes([low, high])
}

// The first 1,024 words, reduced or not. A closure for `from_fn` would have to ask at every word where the bytes end; the loop ends there.
pub fn decode_element(bytes: &[u8]) -> Element
    ensures { result ≡ element_of bytes.now }
{
    let mut a = [0u16; DEGREE];
    let count = (bytes.len() / 2).min(DEGREE);
    for k in 0..count {
        a[k] = word(bytes[2 * k], bytes[2 * k + 1]);
    }
    a
}

// The place of the first word that is 59,393 or more, and 1,024 where there is none: a number, as the definition has it, and so the theorems.
pub fn first_unreduced(a: Element) -> usize
    ensures { result ≡ first_unreduced a }
{
    a.iter().position(|x| *x >= Q).unwrap_or(DEGREE)
}

// Writes the 2,048 bytes of the words.
pub fn encode_element(a: Element, out: &mut [u8])
    ensures { out.new ≡ put_front (element_bytes a) out.old }
{
    if out.len() >= ELEMENT_LENGTH {
        for k in 0..DEGREE {
            let [low, high] = a[k].to_le_bytes();
            out[2 * k] = low;
            out[2 * k + 1] = high;
        }
    }
}

// ---- ternary polynomials

// The coefficient of a code: 1 of 1, - 1 of 2, and 0 of every other.
pub fn coefficient(code: u8) -> u16
    ensures { result ≡ coefficient_of q code }
{
    (code == 1) as u16 + MINUS_ONE * ((code == 2) as u16)
}

// The coefficients of the first 256 bytes, whatever the codes are: four a byte, so no `from_fn`.
pub fn decode_ternary(bytes: &[u8]) -> Element
    ensures { result ≡ ternary_of bytes.now }
{
    let mut t = [0u16; DEGREE];
    let count = bytes.len().min(TERNARY_LENGTH);
    for i in 0..count {
        let b = bytes[i];
        let k = 4 * i;
        let c0 = coefficient(b % 4);
        let c1 = coefficient(b / 4 % 4);
        let c2 = coefficient(b / 16 % 4);
        let c3 = coefficient(b / 64);
        t[k] = c0;
        t[k + 1] = c1;
        t[k + 2] = c2;
        t[k + 3] = c3;
    }
    t
}

// The place of the first code 3 in a byte, and 4 where there is none: the definition `first_invalid` of one byte, and so a number too.
fn invalid_in(b: u8) -> usize
    ensures { result ≡ first_invalid 1 (b ∷ []) }
{
    if b % 4 == 3 {
        return 0;
    }
    if b / 4 % 4 == 3 {
        return 1;
    }
    if b / 16 % 4 == 3 {
        return 2;
    }
    if b / 64 == 3 {
        return 3;
    }
    4
}

// The place of the first code 3 in the first 256 bytes, and 1,024 where there is none: a number, as the definition has it, and so the
// theorems. Nothing is told of the other codes.
pub fn first_invalid_code(bytes: &[u8]) -> usize
    ensures { result ≡ first_invalid_code bytes.now }
{
    for (i, b) in bytes.iter().take(TERNARY_LENGTH).enumerate() {
        let j = invalid_in(*b);
        if j < 4 {
            return 4 * i + j;
        }
    }
    DEGREE
}

// The code of a coefficient: 1 of 1, 2 of - 1, and 0 of every other.
fn code(c: u16) -> u8
    ensures { (result ≡ code_of q c) × (result < 3) }
{
    (c == 1) as u8 + 2 * ((c == MINUS_ONE) as u8)
}

// The byte of four coefficients.
fn packed(c0: u16, c1: u16, c2: u16, c3: u16) -> u8
    ensures { result ≡ packed_of q c0 c1 c2 c3 }
{
    code(c0) + 4 * code(c1) + 16 * code(c2) + 64 * code(c3)
}

// Writes the 256 bytes of the coefficients' codes.
pub fn encode_ternary(t: Element, out: &mut [u8])
    ensures { out.new ≡ put_front (ternary_bytes t) out.old }
{
    if out.len() >= TERNARY_LENGTH {
        for i in 0..TERNARY_LENGTH {
            let k = 4 * i;
            out[i] = packed(t[k], t[k + 1], t[k + 2], t[k + 3]);
        }
    }
}

// ---- marks and versions

// Whether the first three bytes are this mark.
pub fn has_mark(bytes: &[u8], mark: [u8; MARK_LENGTH]) -> bool
    ensures { result ≡ has_mark mark bytes.now }
{
    bytes.starts_with(&mark)
}

// The version after the mark.
pub fn version(bytes: &[u8]) -> u16
    ensures { result ≡ version_of bytes.now }
{
    word(octets::byte_at(bytes, 3), octets::byte_at(bytes, 4))
}

// Writes a mark and a version, five bytes.
pub fn encode_header(mark: [u8; MARK_LENGTH], version: u16, out: &mut [u8])
    ensures { out.new ≡ put_front (header mark version) out.old }
{
    if out.len() >= HEADER_LENGTH {
        out[..MARK_LENGTH].copy_from_slice(&mark);
        out[MARK_LENGTH..HEADER_LENGTH].copy_from_slice(&version.to_le_bytes());
    }
}
