// The scheme of document 01 on ring elements, by value. The elements of a key are given by their spectra: the element with the spectrum v
// is `coefficients_of v`. The tables of factors are lent.
#![tactic(auto)]

ghost use Rattle.std.specs.Prelude.{◌≡◌};
ghost use Rattle.ntt.specs.Spectrum.{spectrum_of, coefficients_of};
ghost use Rattle.ntt.specs.Factors.{forward_factors, backward_factors};
ghost use Rattle.ring.specs.Centred.{quotients, is_within};
ghost use Rattle.scheme.specs.Scheme.{key_element, key_error, masked, summed, phase, recovered, recovers, without_dummy, is_ternary, judged, core, decapsulation, step2};
ghost use Rattle.scheme.specs.Answers.{triple_of, if_invertible, public_key, answer};

use ntt::{DEGREE, Element, Spectrum};
use ring::Quotients;

// ---- keys

// A public key: the spectra of a and b.
#[derive(Clone, Copy)]
pub struct PublicKey {
    pub a: Spectrum,
    pub b: Spectrum,
}

// A secret key: the spectra of a, b, s and of the inverse of b.
#[derive(Clone, Copy)]
pub struct SecretKey {
    pub a: Spectrum,
    pub b: Spectrum,
    pub s: Spectrum,
    pub inverse: Spectrum,
}

// The spectra of a secret key's a, b and s, and whether b = 5 (a × s + e) for a ternary e. The spectra stand beside a mismatch too: 6, that b has
// no inverse, comes before 7.
#[derive(Clone, Copy)]
pub struct CheckedKey {
    pub a: Spectrum,
    pub b: Spectrum,
    pub s: Spectrum,
    pub matches: bool,
}

// Key generation from a, s and e, which tries once: the b of the new key, if it has an inverse.
pub fn generate(
    a: Element,
    s: Element,
    e: Element,
    forward: &[u16],
    backward: &[u16],
) -> Option<Element>
    requires { (forward.now ≡ forward_factors) × (backward.now ≡ backward_factors) }
    ensures { result ≡ if_invertible (key_element a s e) (key_element a s e) }
{
    let b = ring::multiple(5, ring::sum(ring::product_with(a, s, forward, backward), e));
    let zero = ring::has_zero(ntt::forward(b, forward));
    (!zero).then_some(b)
}

// A public key prepared, if its b has an inverse.
pub fn public_key(a: Element, b: Element, forward: &[u16]) -> Option<PublicKey>
    requires { forward.now ≡ forward_factors }
    ensures { result ≡ if_invertible b (public_key a b) }
{
    let a_spectrum = ntt::forward(a, forward);
    let b_spectrum = ntt::forward(b, forward);
    let zero = ring::has_zero(b_spectrum);
    (!zero).then_some(PublicKey {
        a: a_spectrum,
        b: b_spectrum,
    })
}

// b ÷ 5 - a × s, the e of a sound key, from the spectra of a and s; 35,636 is the reciprocal of 5.
fn key_error(a: Spectrum, b: Element, s: Spectrum, backward: &[u16]) -> Element
    requires { backward.now ≡ backward_factors }
    ensures { result ≡ key_error (coefficients_of a) b (coefficients_of s) }
{
    let product = ring::product_of_spectra(a, s, backward);
    ring::difference(ring::multiple(35636, b), product)
}

// The key check but for the inverse of b: whether b = 5 (a × s + e) for a ternary e, beside the key's spectra.
pub fn check_key(
    a: Element,
    b: Element,
    s: Element,
    forward: &[u16],
    backward: &[u16],
) -> CheckedKey
    requires { (forward.now ≡ forward_factors) × (backward.now ≡ backward_factors) }
    ensures matches_value { result.matches ≡ is_within 1 (key_error a b s) }
    ensures a_value { (result.a ≡ spectrum_of a) × (result.b ≡ spectrum_of b) × (result.s ≡ spectrum_of s) }
{
    let a_spectrum = ntt::forward(a, forward);
    let b_spectrum = ntt::forward(b, forward);
    let s_spectrum = ntt::forward(s, forward);
    let error = key_error(a_spectrum, b, s_spectrum, backward);
    let matches = ring::is_within(error, 1);
    CheckedKey {
        a: a_spectrum,
        b: b_spectrum,
        s: s_spectrum,
        matches,
    }
}

// ---- encapsulation

#[derive(Clone, Copy)]
pub struct Triple {
    pub r: Element,
    pub e1: Element,
    pub e2: Element,
}

#[derive(Clone, Copy)]
pub struct Encapsulation {
    pub c1: Element,
    pub c2: Element,
}

// a × r + e1 and b × r + e2.
pub fn encapsulate(key: PublicKey, t: Triple, forward: &[u16], backward: &[u16]) -> Encapsulation
    requires { (forward.now ≡ forward_factors) × (backward.now ≡ backward_factors) }
    ensures { (result.c1 ≡ masked (coefficients_of key.a) t.r t.e1) × (result.c2 ≡ masked (coefficients_of key.b) t.r t.e2) }
{
    let r_spectrum = ntt::forward(t.r, forward);
    let c1 = ring::sum(ring::product_of_spectra(key.a, r_spectrum, backward), t.e1);
    let c2 = ring::sum(ring::product_of_spectra(key.b, r_spectrum, backward), t.e2);
    Encapsulation { c1, c2 }
}

// ---- decapsulation, by the steps of document 01

// The triple, if one was found, and in either case the quotients w of step 3, m = E2 + 5 × w.
#[derive(Clone, Copy)]
pub struct Decapsulation {
    pub triple: Option<Triple>,
    pub quotients: Quotients,
}

// The sums of step 1, as spectra: so a product with either takes no transform.
#[derive(Clone, Copy)]
pub struct Sums {
    pub first: Spectrum,
    pub second: Spectrum,
}

// Step 1: the encapsulation of the dummy is added.
pub fn add_dummy(a: Spectrum, b: Spectrum, dummy: Triple, c: Encapsulation, forward: &[u16]) -> Sums
    requires { forward.now ≡ forward_factors }
    ensures first_value { result.first ≡ spectrum_of (summed (coefficients_of a) dummy.r dummy.e1 c.c1) }
    ensures second_value { result.second ≡ spectrum_of (summed (coefficients_of b) dummy.r dummy.e2 c.c2) }
{
    let r_spectrum = ntt::forward(dummy.r, forward);
    let rest1 = ntt::forward(ring::sum(c.c1, dummy.e1), forward);
    let rest2 = ntt::forward(ring::sum(c.c2, dummy.e2), forward);
    Sums {
        first: ring::sum(ntt::pointwise(a, r_spectrum), rest1),
        second: ring::sum(ntt::pointwise(b, r_spectrum), rest2),
    }
}

// Step 2: m, from the second sum and the product of the first with s.
pub fn phase(second: Spectrum, product: Spectrum, backward: &[u16]) -> Element
    requires { backward.now ≡ backward_factors }
    ensures { result ≡ phase (coefficients_of second) (coefficients_of product) }
{
    ntt::backward(
        ring::difference(second, ring::multiple(5, product)),
        backward,
    )
}

// Step 4: R, E1 and E2, from the sums and E2.
pub fn recover(
    a: Spectrum,
    inverse: Spectrum,
    sums: Sums,
    e2: Element,
    forward: &[u16],
    backward: &[u16],
) -> Triple
    requires { (forward.now ≡ forward_factors) × (backward.now ≡ backward_factors) }
    ensures { triple_of result ≡ recovered (coefficients_of a) (coefficients_of inverse) (coefficients_of sums.first) (coefficients_of sums.second) e2 }
{
    let rest = ring::difference(sums.second, ntt::forward(e2, forward));
    let r_spectrum = ntt::pointwise(rest, inverse);
    let e1_spectrum = ring::difference(sums.first, ntt::pointwise(a, r_spectrum));
    Triple {
        r: ntt::backward(r_spectrum, backward),
        e1: ntt::backward(e1_spectrum, backward),
        e2,
    }
}

// The test of step 4.
pub fn recovers(t: Triple) -> bool
    ensures { result ≡ recovers (triple_of t) }
{
    let r_within = ring::is_within(t.r, 2);
    let e1_within = ring::is_within(t.e1, 2);
    r_within & e1_within
}

// Step 5: the dummy is subtracted.
pub fn subtract_dummy(dummy: Triple, t: Triple) -> Triple
    ensures { triple_of result ≡ without_dummy (triple_of dummy) (triple_of t) }
{
    Triple {
        r: ring::difference(t.r, dummy.r),
        e1: ring::difference(t.e1, dummy.e1),
        e2: ring::difference(t.e2, dummy.e2),
    }
}

// The test of step 5.
pub fn is_ternary(t: Triple) -> bool
    ensures { result ≡ is_ternary (triple_of t) }
{
    let r_ternary = ring::is_within(t.r, 1);
    let e1_ternary = ring::is_within(t.e1, 1);
    let e2_ternary = ring::is_within(t.e2, 1);
    r_ternary & e1_ternary & e2_ternary
}

// The answer, from R, E1 and E2, with the quotients w beside it: both tests are made before either is looked at.
pub fn judge(dummy: Triple, t: Triple, w: Quotients) -> Decapsulation
    ensures { result ≡ answer (judged (triple_of dummy) (triple_of t)) w }
{
    let recovered = recovers(t);
    let u = subtract_dummy(dummy, t);
    let ternary = is_ternary(u);
    let found = recovered & ternary;
    Decapsulation {
        triple: found.then_some(u),
        quotients: w,
    }
}

// Steps 2 to 5, from the sums, the inverse of b and the product of the first sum with s.
pub fn core(
    a: Spectrum,
    inverse: Spectrum,
    dummy: Triple,
    sums: Sums,
    product: Spectrum,
    forward: &[u16],
    backward: &[u16],
) -> Decapsulation
    requires { (forward.now ≡ forward_factors) × (backward.now ≡ backward_factors) }
    ensures { result ≡ answer (core (coefficients_of a) (coefficients_of inverse) (triple_of dummy) (coefficients_of sums.first) (coefficients_of sums.second) (coefficients_of product)) (quotients (phase (coefficients_of sums.second) (coefficients_of product))) }
{
    let d = ring::divide_by_5(phase(sums.second, product, backward));
    let t = recover(a, inverse, sums, d.remainders, forward, backward);
    judge(dummy, t, d.quotients)
}

// Decapsulation with a dummy.
pub fn decapsulate(
    key: SecretKey,
    dummy: Triple,
    c: Encapsulation,
    forward: &[u16],
    backward: &[u16],
) -> Decapsulation
    requires { (forward.now ≡ forward_factors) × (backward.now ≡ backward_factors) }
    ensures { result ≡ answer (decapsulation (coefficients_of key.a) (coefficients_of key.b) (coefficients_of key.inverse) (coefficients_of key.s) (triple_of dummy) c.c1 c.c2) (quotients (step2 (coefficients_of key.a) (coefficients_of key.b) (coefficients_of key.s) (triple_of dummy) c.c1 c.c2)) }
{
    let sums = add_dummy(key.a, key.b, dummy, c, forward);
    let product = ntt::pointwise(sums.first, key.s);
    core(key.a, key.inverse, dummy, sums, product, forward, backward)
}
