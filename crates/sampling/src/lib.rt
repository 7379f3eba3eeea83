// Polynomials from random bytes: document 01, "Desk key", and for the four bits document 02, No. 1 and 6. `ternary` and `uniform` take bytes
// of any length. Two places a byte, and a place a word that is taken, are written by index: no method of the library does either.
#![tactic(auto)]

ghost use Rattle.std.specs.Prelude.{◌≡◌, map, ◌%◌, length};
ghost use Rattle.lists.specs.Table.{table};
ghost use Rattle.ring.specs.Ring.{n};
ghost use Rattle.ring.specs.Centred.{residue};
ghost use Rattle.sampling.specs.Noise.{four_bits, nibble_at, ternary_noise};
ghost use Rattle.sampling.specs.Stream.{taken, uniform_element};

use modq::Q;
use ntt::{DEGREE, Element};

// The bytes that a ternary polynomial is read from: two coefficients a byte.
pub const NOISE_LENGTH: usize = DEGREE / 2;

// A stream's blocks, the words of a block, and its bytes.
const BLOCKS: usize = 16;

const BLOCK_WORDS: usize = 84;

pub const STREAM_LENGTH: usize = 2 * BLOCKS * BLOCK_WORDS;

// ---- noise

// The bits of noise are secret, and so is the place in the table that is read: at a multiple of 16 all sixteen bytes lie in one cache line. The
// array of no u128 takes no room and puts them there.
struct NoiseTable {
    at_16: [u128; 0],
    values: [i8; 16],
}

const _: () = prove!(align_of::<NoiseTable>() == 16);

const _: () = prove!(size_of::<NoiseTable>() == 16);

// The values of the four bits 0 to 15: t0 - t1 + t2 - t3, t0 the lowest, where 2 becomes - 1 and - 2 becomes 1.
static NOISE_VALUES: NoiseTable = NoiseTable {
    at_16: [],
    values: [0, 1, -1, 0, 1, -1, 0, 1, -1, 0, 1, -1, 0, 1, -1, 0],
};

// The value of the four lowest bits, as wide as a coefficient: so the loop behind has nothing to unpack.
fn noise(t: u8) -> i16
    ensures { result ≡ four_bits (t % 16) }
{
    let value = NOISE_VALUES.values[(t % 16) as usize];
    value as i16
}

// The values of the first 512 bytes, two a byte, so no `from_fn`. Missing bytes count as zeros.
fn signed_noise(bytes: &[u8]) -> [i16; DEGREE]
    ensures { result ≡ table n (λ k. four_bits (nibble_at bytes.now k)) }
{
    let mut t = [0i16; DEGREE];
    let count = bytes.len().min(NOISE_LENGTH);
    for i in 0..count {
        let b = bytes[i];
        t[2 * i] = noise(b % 16);
        t[2 * i + 1] = noise(b / 16);
    }
    t
}

// The coefficients of all values, by the ring's step from integers to residues, apart from the loop that reads the table: here the compiler
// works on eight at once, which it cannot where a table is read.
fn coefficients(values: [i16; DEGREE]) -> Element
    ensures { result ≡ map residue values }
{
    let mut t = [0u16; DEGREE];
    for i in 0..DEGREE {
        t[i] = ring::residue(values[i]);
    }
    t
}

// The ternary polynomial of the first 512 bytes, two coefficients a byte. Missing bytes count as zeros.
pub fn ternary(bytes: &[u8]) -> Element
    ensures { result ≡ ternary_noise bytes.now }
{
    coefficients(signed_noise(bytes))
}

// ---- the uniform element

// How many words of a stream were taken, and the polynomial whose first coefficients they are; the rest are zeros.
// The stream was exhausted where the count is below 1,024. Both are promised for every stream, so this is no Option.
#[derive(Clone, Copy)]
pub struct UniformSample {
    pub count: usize,
    pub value: Element,
}

// Reads 16 blocks of 84 words, up to the word that completes the polynomial or to the last whole word of a shorter stream. Two loops, left from
// inside, are the form that document 01 names ("Forms for parts of the code").
pub fn uniform(stream: &[u8]) -> UniformSample
    ensures { (result.count ≡ length (taken stream.now)) × (result.value ≡ uniform_element stream.now) }
{
    let mut value = [0u16; DEGREE];
    let mut count: usize = 0;
    'blocks: for k in 0..BLOCKS {
        for j in 0..BLOCK_WORDS {
            let at = 2 * (BLOCK_WORDS * k + j);
            if at + 1 >= stream.len() {
                break 'blocks;
            }
            let w = encoding::word(stream[at], stream[at + 1]);
            if w < Q {
                value[count] = w;
                count += 1;
                if count == DEGREE {
                    break 'blocks;
                }
            }
        }
    }
    UniformSample {
        count: count,
        value: value,
    }
}
