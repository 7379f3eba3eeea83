// The layers of the number theoretic transform modulo X^1024 + 1 and q = 59393, there and back: 512 butterflies each.
#![tactic(auto)]

ghost use Rattle.std.specs.Prelude.{◌≡◌, ◌<◌, length};
ghost use Rattle.algebra.specs.Numbers.{Below};
ghost use Rattle.twiddles.specs.Powers.{q, degree};
ghost use Rattle.twiddles.specs.Factors.{forward_factor, backward_factor, forward_factors, backward_factors};
ghost use Rattle.butterflies.specs.Layers.{forward_layer, pairs, halves, unzipped_layer};

use twiddles::HALF;

// The loops here are by index: of what a loop over a zip of mutable iterators has written, the library's contracts say nothing.

// A layer to values: x and y of a pair go to x + f y and x - f y, where f is its factor.
pub fn forward_layer(r: &mut [u16], a: &[u16], w: &[u16], k: usize)
    requires r_len { (length r.old ≡ degree) × (length a.now ≡ degree) × Below q a.now × (k < 10) }
    requires w_value { w.now ≡ forward_factors }
    ensures { r.new ≡ forward_layer q 512 (forward_factor k) a.now }
{
    for j in 0..HALF {
        let x = a[j];
        let product = modq::montgomery_product(w[HALF * k + j], a[HALF + j]);
        let sum = modq::add_reduced(x, product);
        let difference = modq::sub_reduced(x, product);
        r[2 * j] = sum;
        r[2 * j + 1] = difference;
    }
}

// The entries 2 j and 2 j + 1 in one number. The compiler makes one copy of memory of it, and takes halves of 32 bits apart faster than
// it reads every other word.
pub fn pairs(v: &mut [u32], a: &[u16])
    requires { (length v.old ≡ 512) × (length a.now ≡ degree) }
    ensures { v.new ≡ pairs 512 a.now }
{
    for j in 0..HALF {
        v[j] = a[2 * j] as u32 + 65536 * a[2 * j + 1] as u32;
    }
}

// The low halves, then the high halves.
pub fn halves(p: &mut [u16], v: &[u32])
    requires { (length p.old ≡ degree) × (length v.now ≡ 512) }
    ensures { p.new ≡ halves 512 v.now }
{
    for j in 0..HALF {
        p[j] = (v[j] % 65536) as u16;
        p[HALF + j] = (v[j] / 65536) as u16;
    }
}

// A layer back, from the entries at even places, then those at odd places.
pub fn backward_layer(r: &mut [u16], p: &[u16], w: &[u16], k: usize)
    requires r_len { (length r.old ≡ degree) × (length p.now ≡ degree) × Below q p.now × (k < 10) }
    requires w_value { w.now ≡ backward_factors }
    ensures { r.new ≡ unzipped_layer q 512 (backward_factor k) p.now }
{
    for j in 0..HALF {
        let x = p[j];
        let y = p[HALF + j];
        let difference = modq::sub_reduced(y, x);
        r[j] = modq::add_reduced(x, y);
        r[HALF + j] = modq::montgomery_product(w[HALF * k + j], difference);
    }
}
