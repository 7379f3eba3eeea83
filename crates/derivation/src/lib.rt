// Keys, keystream, body and tag of a triple of ternary polynomials: document 01, "Bytes", and of batches document 02, No. 4.
// Nothing here branches on a secret or indexes by one.
#![tactic(auto)]

ghost use Rattle.std.specs.Prelude.{◌≡◌, ◌∷◌, ◌++◌, ◌%◌, ◌<◌, length};
ghost use Rattle.gf128.specs.Bytes.{block};
ghost use Rattle.triples.specs.Triple.{triple_bytes};
ghost use Rattle.derivation.specs.Derivation.{key_material, key0, key1, key2, keystream, under_keystream, body_of, tag_of, is_genuine};

use octets::BLOCK_LENGTH;
use records::TRIPLE_LENGTH;
use scheme::Triple;

// What is hashed for the keys and for the keystream, and the three keys.
const KEY_INPUT: usize = 1 + TRIPLE_LENGTH;

const KEYSTREAM_INPUT: usize = 1 + BLOCK_LENGTH;

const KEY_MATERIAL: usize = 3 * BLOCK_LENGTH;

// ---- keys

// K0, K1 and K2.
#[derive(Clone, Copy)]
struct Keys {
    k0: [u8; BLOCK_LENGTH],
    k1: [u8; BLOCK_LENGTH],
    k2: [u8; BLOCK_LENGTH],
}

// What the keys are hashed from: byte 0x01 and the triple.
fn key_input(t: Triple) -> [u8; KEY_INPUT]
    ensures { result ≡ 0x01 ∷ triple_bytes t.r t.e1 t.e2 }
{
    let mut input = [0u8; KEY_INPUT];
    input[0] = 0x01;
    triples::write_triple(t, &mut input[1..KEY_INPUT]);
    input
}

fn key_material(t: Triple) -> [u8; KEY_MATERIAL]
    ensures { result ≡ key_material t.r t.e1 t.e2 }
{
    let input = key_input(t);
    let mut material = [0u8; KEY_MATERIAL];
    shake::shake256(&input, &mut material);
    material
}

// Part i of the key material.
fn part(material: [u8; KEY_MATERIAL], i: usize) -> [u8; BLOCK_LENGTH]
    requires { i < 3 }
    ensures { result ≡ block i material }
{
    let at = BLOCK_LENGTH * i;
    octets::read_block(&material[at..at + BLOCK_LENGTH])
}

fn derive_keys(t: Triple) -> Keys
    ensures { (result.k0 ≡ key0 t.r t.e1 t.e2) × (result.k1 ≡ key1 t.r t.e1 t.e2) × (result.k2 ≡ key2 t.r t.e1 t.e2) }
{
    let material = key_material(t);
    Keys {
        k0: part(material, 0),
        k1: part(material, 1),
        k2: part(material, 2),
    }
}

// ---- keystream

// What the keystream is hashed from: byte 0x02 and K0.
fn keystream_input(k0: [u8; BLOCK_LENGTH]) -> [u8; KEYSTREAM_INPUT]
    ensures { result ≡ 0x02 ∷ k0 }
{
    let mut input = [0u8; KEYSTREAM_INPUT];
    input[0] = 0x02;
    octets::write_block(k0, &mut input[1..KEYSTREAM_INPUT]);
    input
}

// The keystream, as long as the buffer, squeezed once.
fn keystream(k0: [u8; BLOCK_LENGTH], out: &mut [u8])
    ensures { out.new ≡ keystream k0 (length out.old) }
{
    let input = keystream_input(k0);
    shake::shake256(&input, out);
}

// A text under the keystream of K0, in a buffer of its length: the body of an entry, or the entry of a body.
pub fn under_keystream(k0: [u8; BLOCK_LENGTH], text: &[u8], out: &mut [u8])
    requires { length text.now ≡ length out.old }
    ensures { out.new ≡ under_keystream k0 text.now }
{
    keystream(k0, out);
    gf128::add_to(text, out);
}

// ---- entries; the tag is that of the blocks in `front`, of which a single entry has none, and of the body. That `front` is whole blocks is a clause, as
// in `gf128::tag`: a type of whole blocks would ask more of those who lend bytes.

// Writes the body of an entry, and gives the tag.
pub fn protect(t: Triple, front: &[u8], entry: &[u8], body: &mut [u8]) -> [u8; BLOCK_LENGTH]
    requires { (length front.now % 16 ≡ 0) × (length entry.now ≡ length body.old) }
    ensures body_after { body.new ≡ body_of t.r t.e1 t.e2 entry.now }
    ensures value { result ≡ tag_of t.r t.e1 t.e2 (front.now ++ body_of t.r t.e1 t.e2 entry.now) }
{
    let keys = derive_keys(t);
    under_keystream(keys.k0, entry, body);
    gf128::tag(keys.k1, front, body, keys.k2)
}

// Whether a tag is right, and K0, which shows the entry: no Option, since K0 is promised beside a wrong tag too. Nothing of the entry is worked
// out here.
#[derive(Clone, Copy)]
pub struct Verified {
    pub genuine: bool,
    pub k0: [u8; BLOCK_LENGTH],
}

pub fn verify(t: Triple, front: &[u8], body: &[u8], tag: [u8; BLOCK_LENGTH]) -> Verified
    requires { length front.now % 16 ≡ 0 }
    ensures genuine_value { result.genuine ≡ is_genuine t.r t.e1 t.e2 (front.now ++ body.now) tag }
    ensures k0_value { result.k0 ≡ key0 t.r t.e1 t.e2 }
{
    let keys = derive_keys(t);
    let expected = gf128::tag(keys.k1, front, body, keys.k2);
    let genuine = gf128::equal(tag, expected);
    let k0 = keys.k0;
    Verified { genuine, k0 }
}
