// Strings of bytes as states, FIPS 202, section 3.1.2: a string's lanes, and a state with them added.
#![tactic(auto)]

ghost use Rattle.std.specs.Prelude.{◌≡◌, ◌+◌, ◌*◌, ◌%◌, ◌<◌, ◌≤◌, length, get_or};
ghost use Rattle.std.specs.Int.Bits.{bit_xor};
ghost use Rattle.lists.specs.Table.{table};
ghost use Rattle.keccak_steps.specs.Steps.{lane, plane, state};
ghost use Rattle.string_to_state.specs.Words.{word};

use std::array;

// Lane k of a string of whole lanes, and 0 past its end.
fn word(b: &[u8], k: usize) -> u64
    requires { (length b.now % 8 ≡ 0) × (k < 25) }
    ensures { result ≡ word b.now k }
{
    let at = 8 * k;
    if at >= b.len() {
        return 0;
    }
    octets::word64_at(b, at)
}

// The lanes of a string of whole lanes, and zeros up to 25. All 25 are looked at, so that a string of any rate is read without a copy.
pub fn words(b: &[u8]) -> [u64; 25]
    requires { length b.now % 8 ≡ 0 }
    ensures { result ≡ table 25 (word b.now) }
{
    array::from_fn(|k| word(b, k))
}

// A plane with five lanes of w added, from lane 5 y on.
fn xor_plane(p: [u64; 5], w: &[u64; 25], y: usize) -> [u64; 5]
    requires { y < 5 }
    ensures { result ≡ plane (λ x. bit_xor (get_or p x 0) (get_or w.now (5 * y + x) 0)) }
{
    let i = 5 * y;
    [
        p[0] ^ w[i],
        p[1] ^ w[i + 1],
        p[2] ^ w[i + 2],
        p[3] ^ w[i + 3],
        p[4] ^ w[i + 4],
    ]
}

// The state with the lanes of w added.
pub fn xor_words(s: [[u64; 5]; 5], w: [u64; 25]) -> [[u64; 5]; 5]
    ensures { result ≡ state (λ x y. bit_xor (lane s x y) (get_or w (5 * y + x) 0)) }
{
    [
        xor_plane(s[0], &w, 0),
        xor_plane(s[1], &w, 1),
        xor_plane(s[2], &w, 2),
        xor_plane(s[3], &w, 3),
        xor_plane(s[4], &w, 4),
    ]
}
