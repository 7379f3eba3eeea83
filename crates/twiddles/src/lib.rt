// The factors of the layers of the number theoretic transform modulo X^1024 + 1 and q = 59393: powers of ψ = 3, all from one constant table.
#![tactic(auto)]

mod table;

ghost use Rattle.std.specs.Prelude.{◌≡◌, ◌++◌, ◌+◌, ◌-◌, ◌/◌, ◌%◌, ◌^◌, ◌<◌, ◌≤◌, length, get_or, take, drop};
ghost use Rattle.lists.specs.Table.{table};
ghost use Rattle.algebra.specs.Halving.{reversed};
ghost use Rattle.algebra.specs.Numbers.{scale};
ghost use Rattle.modq.specs.Montgomery.{montgomery_form, from_montgomery};
ghost use Rattle.twiddles.specs.Powers.{q, degree, power, powers_table, power_forms};
ghost use Rattle.twiddles.specs.Factors.{block_of, forward_factors, backward_factors};

use std::array;

// The degree of the ring.
pub const DEGREE: usize = 1024;

const DEGREE_U16: u16 = DEGREE as u16;

// A transform has ten layers of 512 pairs, with a factor for each pair.
pub const HALF: usize = DEGREE / 2;

pub const LAYERS: usize = 10;

pub const FACTORS: usize = LAYERS * HALF;

// ---- the table of powers

// The one reader of the constant. To name it in `power_forms` is no plainer: the rule of its 1,024 numbers would have no contract of its own.
fn powers() -> [u16; DEGREE]
    ensures { result ≡ powers_table }
{
    table::POWERS
}

// ---- multiples

// Each word times the number whose form is w.
pub fn scaled(w: u16, a: [u16; DEGREE]) -> [u16; DEGREE]
    requires { w < q }
    ensures { result ≡ scale q degree (from_montgomery w) a }
{
    let mut r = [0u16; DEGREE];
    for i in 0..DEGREE {
        r[i] = modq::montgomery_product(w, a[i]);
    }
    r
}

// ---- the factors of the layers

// Entry m is m with its ten bits in reverse order, from entry m / 2, as the definition `reversed` goes: so a loop, and no `from_fn`; with
// `reverse_bits`, which turns sixteen bits, a law from sixteen to ten would come on top. The
// first factor is ψ^512, since X^1024 + 1 is X^1024 - ψ^1024.
fn exponents() -> [u16; DEGREE]
    ensures { result ≡ table degree (reversed 10) }
{
    let mut r = [0u16; DEGREE];
    r[1] = 512;
    for m in 2..DEGREE {
        r[m] = r[m / 2] / 2 + (m % 2) as u16 * 512;
    }
    r
}

// 1024 less each exponent.
fn opposites(e: [u16; DEGREE]) -> [u16; DEGREE]
    requires { e ≡ table degree (reversed 10) }
    ensures { result ≡ table degree (λ m. degree - reversed 10 m) }
{
    array::from_fn(|m| DEGREE_U16 - e[m])
}

// The powers in Montgomery's form: 21894 is the form of 2^16.
fn power_forms() -> [u16; DEGREE]
    ensures { result ≡ power_forms }
{
    scaled(21894, powers())
}

// The powers with the exponents e, in Montgomery's form. No factor has the exponent 1024.
fn block_factors(e: [u16; DEGREE]) -> [u16; DEGREE]
    ensures { result ≡ table degree (λ m. montgomery_form (power (get_or e m 0 % degree))) }
{
    let t = power_forms();
    array::from_fn(|m| t[(e[m] % DEGREE_U16) as usize])
}

// The factors of the n blocks of a layer, where n is the length of w. By index, as `octets::copy`: the library's copy makes the archive ask
// for memmove.
fn first_factors(w: &mut [u16], f: &[u16])
    requires { length w.old + length w.old ≤ length f.now }
    ensures { w.new ≡ take (length w.old) (drop (length w.old) f.now) }
{
    let n = w.len();
    for i in 0..n {
        w[i] = f[n + i];
    }
}

// Copies the first half to the second.
fn double(w: &mut [u16], m: usize)
    requires { length w.old ≡ m + m }
    ensures { w.new ≡ take m w.old ++ take m w.old }
{
    let (first, second) = w.split_at_mut(m);
    second.copy_from_slice(first);
}

// Repeats the first 2^k entries up to 512, by doubling what stands already.
fn repeat(w: &mut [u16], k: usize)
    requires { (length w.old ≡ 512) × (k < 10) }
    ensures { w.new ≡ table 512 (λ j. get_or w.old (j % 2 ^ k) 0) }
{
    for d in k..9 {
        let m = 1 << d;
        double(&mut w[0..m + m], m);
    }
}

// The factors of layer k: each block's factor at all its pairs.
fn layer_factors(w: &mut [u16], f: &[u16], k: usize)
    requires { (length w.old ≡ 512) × (length f.now ≡ degree) × (k < 10) }
    ensures { w.new ≡ table 512 (λ j. get_or f.now (block_of k j) 0) }
{
    let n = 1 << k;
    first_factors(&mut w[0..n], f);
    repeat(w, k);
}

// Parts by index: of what an adapter of `chunks_exact_mut` has written, the library's contracts say nothing.
fn pair_factors(w: &mut [u16], f: &[u16])
    requires { (length w.old ≡ 5120) × (length f.now ≡ degree) }
    ensures { w.new ≡ table 5120 (λ i. get_or f.now (block_of (i / 512) (i % 512)) 0) }
{
    for k in 0..LAYERS {
        let start = HALF * k;
        let end = start + HALF;
        layer_factors(&mut w[start..end], f, k);
    }
}

// A table is written where its caller wants it: as a result it would be copied, and take its room on the stack twice. So a caller makes both in four
// lines; one function that lends them to a closure would be no plainer, since each caller gives something else.

// The table that the transform to values is lent.
pub fn forward_factors(w: &mut [u16; FACTORS])
    ensures { w.new ≡ forward_factors }
{
    let f = block_factors(exponents());
    pair_factors(w, &f);
}

// The table that the transform back is lent.
pub fn backward_factors(w: &mut [u16; FACTORS])
    ensures { w.new ≡ backward_factors }
{
    let f = block_factors(opposites(exponents()));
    pair_factors(w, &f);
}
