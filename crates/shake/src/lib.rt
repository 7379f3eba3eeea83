// SHAKE128 and SHAKE256 of FIPS 202 over one sponge, whose rate in bytes is a parameter of its type.
#![tactic(auto)]

ghost use Rattle.std.specs.Prelude.{◌≡◌, ◌++◌, ◌/◌, ◌-◌, ◌<◌, ◌≤◌, length};
ghost use Rattle.lists.specs.Table.{table, zeros};
ghost use Rattle.string_to_state.specs.Words.{word};
ghost use Rattle.shake.specs.Sponge.{Rate, block, absorb, squeeze};
ghost use Rattle.shake.specs.Shake.{padding, padded, shake, shake128, shake256};

// The rates: 1,344 and 1,088 bits.
const SHAKE128_RATE: usize = 168;

const SHAKE256_RATE: usize = 136;

// The bytes of t, and zeros up to 200.
fn zero_filled(t: &[u8]) -> [u8; 200]
    requires { length t.now ≤ 200 }
    ensures { result ≡ t.now ++ zeros (200 - length t.now) }
{
    let mut b = [0u8; 200];
    b[..t.len()].copy_from_slice(t);
    b
}

// A sponge by its rate in bytes.
#[derive(Clone, Copy)]
struct Sponge<const RATE: usize> {
    ghost is_rate: { Rate RATE },
}

impl<const RATE: usize> Sponge<RATE> {
    // The last block of a padded message whose last bytes, fewer than a block, are t, and zeros up to 200.
    fn last_block(self, t: &[u8]) -> [u8; 200]
        requires { length t.now < RATE }
        ensures { result ≡ (t.now ++ padding (RATE - length t.now)) ++ zeros (200 - RATE) }
    {
        let n = t.len();
        let mut b = zero_filled(t);
        if n + 1 == RATE {
            b[n] = 0x9F;
        } else {
            b[n] = 0x1F;
            b[RATE - 1] = 0x80;
        }
        b
    }

    // The lanes of block k of the padded message, and zeros up to 25.
    fn block_words(self, input: &[u8], k: usize) -> [u64; 25]
        requires { k ≤ length input.now / RATE }
        ensures { result ≡ table 25 (word (block RATE k (padded RATE input.now))) }
    {
        let at = RATE * k;
        if input.len() - at >= RATE {
            return string_to_state::words(&input[at..at + RATE]);
        }
        let b = self.last_block(&input[at..]);
        string_to_state::words(&b)
    }

    // Algorithm 8, steps 1 to 6, for a message that is padded here. By the number of a block, since the last is no chunk of the input. The
    // permutation stands in one place: the compiler then copies no state.
    fn absorb(self, input: &[u8]) -> [[u64; 5]; 5]
        ensures { result ≡ absorb RATE (padded RATE input.now) }
    {
        let n = input.len() / RATE + 1;
        let mut s = [[0u64; 5]; 5];
        for k in 0..n {
            let w = self.block_words(input, k);
            let t = keccak::keccak_f(string_to_state::xor_words(s, w));
            s = t;
        }
        s
    }

    // Algorithm 8, steps 7 to 10. Blocks by index: of what an iterator over mutable chunks has written, the library's contracts say nothing.
    fn squeeze(self, s: [[u64; 5]; 5], out: &mut [u8])
        ensures { out.new ≡ squeeze RATE s (length out.old) }
    {
        if out.len() == 0 {
            return;
        }
        let n = (out.len() - 1) / RATE;
        let mut s = s;
        for k in 0..n {
            let at = RATE * k;
            let current = s;
            state_to_string::put_bytes(current, &mut out[at..at + RATE]);
            let next = keccak::keccak_f(current);
            s = next;
        }
        let at = RATE * n;
        state_to_string::put_bytes(s, &mut out[at..]);
    }

    // The SHAKE of a rate: fills `out`, of any length, from a message of any length.
    fn shake(self, input: &[u8], out: &mut [u8])
        ensures { out.new ≡ shake RATE input.now (length out.old) }
    {
        let s = self.absorb(input);
        self.squeeze(s, out);
    }
}

pub fn shake128(input: &[u8], out: &mut [u8])
    ensures { out.new ≡ shake128 input.now (length out.old) }
{
    Sponge::<SHAKE128_RATE> {}.shake(input, out);
}

pub fn shake256(input: &[u8], out: &mut [u8])
    ensures { out.new ≡ shake256 input.now (length out.old) }
{
    Sponge::<SHAKE256_RATE> {}.shake(input, out);
}
