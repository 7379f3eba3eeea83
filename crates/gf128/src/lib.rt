// The field of 2^128 elements modulo x^128 + x^7 + x^2 + x + 1, its elements as 16 bytes, and the tag over blocks of 16 bytes. No branch and no
// index depends on a byte: a bit selects by multiplication, and a comparison looks at every byte.
#![tactic(auto)]

ghost use Rattle.std.specs.Prelude.{◌≡◌, ◌++◌, ◌+◌, ◌*◌, ◌/◌, ◌%◌, ◌<◌, ◌≤◌, length};
ghost use Rattle.std.specs.Int.Bits.{bit_xor};
ghost use Rattle.lists.specs.Bits.{bit};
ghost use Rattle.gf128.specs.Field.{times};
ghost use Rattle.gf128.specs.Bytes.{number, bytes, sum, product, equal, folded, tag};
ghost use Rattle.gf128.specs.Words.{value, times_x};

// A polynomial of degree below 128: the coefficients of x^0 to x^63 are the bits of lo, the others those of hi.
#[derive(Clone, Copy)]
struct Element {
    lo: u64,
    hi: u64,
}

// ---- elements as bytes

// The element of 16 bytes.
fn load(b: &[u8]) -> Element
    requires { length b.now ≡ 16 }
    ensures { value result ≡ number b.now }
{
    Element {
        lo: octets::word64_at(b, 0),
        hi: octets::word64_at(b, 8),
    }
}

// The 16 bytes of an element.
fn store(e: Element) -> [u8; 16]
    ensures { result ≡ bytes 16 (value e) }
{
    let mut r = [0u8; 16];
    r[..8].copy_from_slice(&e.lo.to_le_bytes());
    r[8..].copy_from_slice(&e.hi.to_le_bytes());
    r
}

// ---- arithmetic

fn add(a: Element, b: Element) -> Element
    ensures { value result ≡ bit_xor (value a) (value b) }
{
    Element {
        lo: a.lo ^ b.lo,
        hi: a.hi ^ b.hi,
    }
}

// x × e: the term x^128, if any, is x^7 + x^2 + x + 1.
fn times_x(e: Element) -> Element
    ensures { value result ≡ times_x (value e) }
{
    let top = e.hi >> 63;
    Element {
        lo: (e.lo << 1) ^ (top * 135),
        hi: (e.hi << 1) + (e.lo >> 63),
    }
}

fn times_bit(e: Element, bit: u64) -> Element
    requires { bit < 2 }
    ensures { value result ≡ bit * value e }
{
    Element {
        lo: e.lo * bit,
        hi: e.hi * bit,
    }
}

// The coefficient of x^i.
fn coefficient(e: Element, i: usize) -> u64
    requires { i < 128 }
    ensures { result ≡ bit i (value e) }
{
    if i < 64 {
        (e.lo >> i) % 2
    } else {
        (e.hi >> (i - 64)) % 2
    }
}

// a × b, by Horner's rule over the coefficients of b.
fn mul(a: Element, b: Element) -> Element
    ensures { value result ≡ times (value a) (value b) }
{
    let mut r = Element { lo: 0, hi: 0 };
    for i in (0..128).rev() {
        r = add(times_x(r), times_bit(a, coefficient(b, i)));
    }
    r
}

// From `start`, over the m whole blocks of a string: k^m × start + k^m × B1 + .. + k × Bm.
fn fold(k: Element, start: Element, blocks: &[u8]) -> Element
    ensures { value result ≡ number (folded (bytes 16 (value k)) (bytes 16 (value start)) (length blocks.now / 16) blocks.now) }
{
    let mut r = start;
    for block in blocks.chunks_exact(16) {
        let added = add(r, load(block));
        r = mul(k, added);
    }
    r
}

// ---- on bytes

// Adds a string to a buffer of its length, each byte xor each byte: body and entries come from each other so, by the keystream. By index: of
// what a zip of mutable iterators has written, the library's contracts say nothing.
pub fn add_to(a: &[u8], out: &mut [u8])
    requires { length a.now ≡ length out.old }
    ensures { out.new ≡ sum a.now out.old }
{
    let n = a.len();
    for k in 0..n {
        out[k] = a[k] ^ out[k];
    }
}

// The product in the field.
pub fn product(a: [u8; 16], b: [u8; 16]) -> [u8; 16]
    ensures { result ≡ product a b }
{
    store(mul(load(&a), load(&b)))
}

// The tag of the whole blocks of two strings, `front` before `blocks`: k1^m × B1 + .. + k1 × Bm + k2. Bytes behind the last whole block are
// not read.
pub fn tag(k1: [u8; 16], front: &[u8], blocks: &[u8], k2: [u8; 16]) -> [u8; 16]
    requires { length front.now % 16 ≡ 0 }
    ensures { result ≡ tag k1 (front.now ++ blocks.now) k2 }
{
    let k = load(&k1);
    let start = fold(k, Element { lo: 0, hi: 0 }, front);
    let folded = fold(k, start, blocks);
    store(add(folded, load(&k2)))
}

// Whether all 16 bytes agree, in the same steps wherever they differ.
pub fn equal(a: [u8; 16], b: [u8; 16]) -> bool
    ensures { result ≡ equal a b }
{
    let mut difference: u8 = 0;
    for (x, y) in a.iter().zip(&b) {
        difference |= x ^ y;
    }
    difference == 0
}
