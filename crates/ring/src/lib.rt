// The ring of document 01: polynomials with coefficients modulo q = 59,393 and X^1024 = - 1, as arrays of 1,024 words by value.
// Every word is taken as its residue modulo q, and the public functions are total. A result is built up from 1,024 zeros.
// The reciprocals of a spectrum, and the test whether there are any, are those of crate reciprocals.
#![tactic(auto)]

ghost use Rattle.std.specs.Prelude.{◌≡◌, Some, None, if◌then◌else◌};
ghost use Rattle.std.proofs.Math.Bool.{decide};
ghost use Rattle.ntt.specs.Spectrum.{coefficients_of};
ghost use Rattle.ntt.specs.Factors.{forward_factors, backward_factors};
ghost use Rattle.ring.specs.Ring.{one, sum, difference, multiple, product};
ghost use Rattle.ring.specs.Invertible.{is_invertible, inverse_of, is_inverse};
ghost use Rattle.ring.specs.Centred.{centred, residue, centred_remainder, centred_quotient, remainder_of, quotient_of, remainders, quotients, is_near, is_within};
ghost use Rattle.ring.specs.Division.{DivisionExact};

use modq::Q;
use ntt::{DEGREE, Element, FACTORS, Spectrum};
pub use reciprocals::{has_zero, reciprocals};

// ---- sums and multiples, word by word: of spectra they are the spectra of sums and multiples

pub fn one() -> Element
    ensures { result ≡ one }
{
    let mut r = [0u16; DEGREE];
    r[0] = 1;
    r
}

pub fn sum(a: Element, b: Element) -> Element
    ensures { result ≡ sum a b }
{
    let mut r = [0u16; DEGREE];
    for k in 0..DEGREE {
        r[k] = modq::add(a[k], b[k]);
    }
    r
}

pub fn difference(a: Element, b: Element) -> Element
    ensures { result ≡ difference a b }
{
    let mut r = [0u16; DEGREE];
    for k in 0..DEGREE {
        r[k] = modq::sub(a[k], b[k]);
    }
    r
}

// c × a.
pub fn multiple(c: u16, a: Element) -> Element
    ensures { result ≡ multiple c a }
{
    ntt::multiple(c, a)
}

// ---- centred values, and their division by 5

// The centred value of a coefficient, from - 29,696 to 29,696.
pub fn centred(c: u16) -> i16
    ensures { result ≡ centred c }
{
    let y = c % Q;
    if y <= 29696 {
        return y as i16;
    }
    let z = (Q - y) as i16;
    0 - z
}

// What dividing an integer by 5 gives.
#[derive(Clone, Copy)]
pub struct Division {
    pub remainder: i16,
    pub quotient: i16,
}

// m = remainder + 5 × quotient, with the remainder between - 2 and 2. That of the machine has the sign of m and is between - 4 and 4, and its
// quotient is rounded toward zero: where the remainder moves by 5, the quotient moves by 1.
pub fn centred_division(m: i16) -> Division
    ensures { (result.remainder ≡ centred_remainder m) × (result.quotient ≡ centred_quotient m) }
{
    let t = m % 5;
    let v = m / 5;
    if t > 2 {
        let lowered = t - 5;
        let raised = v + 1;
        return Division {
            remainder: lowered,
            quotient: raised,
        };
    }
    if t < -2 {
        let raised = t + 5;
        let lowered = v - 1;
        return Division {
            remainder: raised,
            quotient: lowered,
        };
    }
    Division {
        remainder: t,
        quotient: v,
    }
}

// The residue modulo q of an integer.
pub fn residue(m: i16) -> u16
    ensures { result ≡ residue m }
{
    if m < 0 {
        let k = (-1 - m) as u16;
        return Q - 1 - k;
    }
    m as u16
}

// The remainder as a coefficient, and the quotient, which is between - 5,939 and 5,939.
#[derive(Clone, Copy)]
struct CoefficientDivision {
    remainder: u16,
    quotient: i16,
}

fn divide_coefficient(c: u16) -> CoefficientDivision
    ensures { (result.remainder ≡ remainder_of c) × (result.quotient ≡ quotient_of c) }
{
    let m = centred(c);
    let d = centred_division(m);
    let remainder = residue(d.remainder);
    let quotient = d.quotient;
    CoefficientDivision {
        remainder,
        quotient,
    }
}

// A quotient for every coefficient.
pub type Quotients = [i16; DEGREE];

// What dividing every centred coefficient by 5 gives.
#[derive(Clone, Copy)]
pub struct ElementDivision {
    pub remainders: Element,
    pub quotients: Quotients,
}

// m = remainders + 5 × quotients, coefficient by coefficient, with the remainders between - 2 and 2: E2 and w of document 01's step 3.
pub fn divide_by_5(m: Element) -> ElementDivision
    ensures remainders_value { (result.remainders ≡ remainders m) × (result.quotients ≡ quotients m) }
    ensures division_exact { DivisionExact m result.remainders result.quotients }
{
    // one pass fills two arrays: by index, since of what a zip of mutable iterators has written the library's contracts say nothing
    let mut r = [0u16; DEGREE];
    let mut w = [0i16; DEGREE];
    for k in 0..DEGREE {
        let d = divide_coefficient(m[k]);
        let quotient = d.quotient;
        r[k] = d.remainder;
        w[k] = quotient;
    }
    ElementDivision {
        remainders: r,
        quotients: w,
    }
}

// ---- tests of every coefficient

// Whether the centred value of x is between - k and k.
fn is_near(x: u16, k: u16) -> bool
    ensures { result ≡ is_near k x }
{
    let y = modq::reduce(x);
    if y <= k {
        return true;
    }
    Q - y <= k
}

// Whether every centred coefficient is between - k and k; with k = 1 document 01's short. It looks at all of them. That no time
// tells which one failed is so of the compiled code, which has no branch here, and not of this text: `is_near` returns early.
pub fn is_within(a: Element, k: u16) -> bool
    ensures { result ≡ is_within k a }
{
    a.iter().fold(true, |all, x| all & is_near(*x, k))
}

// ---- products and inverses, by the transform. The tables of factors are lent, so that a caller makes them once.

// The product of the two elements with the spectra x and y.
pub fn product_of_spectra(x: Spectrum, y: Spectrum, backward: &[u16]) -> Element
    requires { backward.now ≡ backward_factors }
    ensures { result ≡ product (coefficients_of x) (coefficients_of y) }
{
    ntt::backward_product(x, y, backward)
}

pub fn product_with(a: Element, b: Element, forward: &[u16], backward: &[u16]) -> Element
    requires { (forward.now ≡ forward_factors) × (backward.now ≡ backward_factors) }
    ensures { result ≡ product a b }
{
    let x = ntt::forward(a, forward);
    let y = ntt::forward(b, forward);
    ntt::backward_product(x, y, backward)
}

pub fn product(a: Element, b: Element) -> Element
    ensures { result ≡ product a b }
{
    let mut w = [0u16; FACTORS];
    let mut v = [0u16; FACTORS];
    ntt::forward_factors(&mut w);
    ntt::backward_factors(&mut v);
    product_with(a, b, &w, &v)
}

// The inverse of an element, if it has one.
pub fn inverse_with(b: Element, forward: &[u16], backward: &[u16]) -> Option<Element>
    requires { (forward.now ≡ forward_factors) × (backward.now ≡ backward_factors) }
    ensures { result ≡ if decide (is_invertible b) then Some (inverse_of b) else None }
{
    let t = ntt::forward(b, forward);
    if has_zero(t) {
        return None;
    }
    Some(ntt::backward(reciprocals(t), backward))
}

pub fn inverse(b: Element) -> Option<Element>
    ensures { result ≡ if decide (is_invertible b) then Some (inverse_of b) else None }
{
    let mut w = [0u16; FACTORS];
    let mut v = [0u16; FACTORS];
    ntt::forward_factors(&mut w);
    ntt::backward_factors(&mut v);
    inverse_with(b, &w, &v)
}

// Whether the elements with the spectra x and y are inverse to each other: every product of two entries is then 1. It looks at all of them.
pub fn are_inverses(x: Spectrum, y: Spectrum) -> bool
    ensures { result ≡ decide (is_inverse (coefficients_of x) (coefficients_of y)) }
{
    reciprocals::are_reciprocals(x, y)
}
