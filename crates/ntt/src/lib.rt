// The number theoretic transform of polynomials modulo X^1024 + 1 and q = 59393, on arrays of any u16 words.
// The degree and the tables that the transforms are lent are those of crate twiddles.
#![tactic(auto)]

ghost use Rattle.std.specs.Prelude.{◌≡◌};
ghost use Rattle.algebra.specs.Numbers.{mul_mod, Below, reduced, scale};
ghost use Rattle.ntt.specs.Spectrum.{q, degree, inverse_degree, spectrum_of, coefficients_of, pointwise};
ghost use Rattle.ntt.specs.Factors.{forward_factors, backward_factors, backward_layers};

pub use twiddles::{DEGREE, FACTORS, backward_factors, forward_factors};
use twiddles::{HALF, LAYERS};

// An element of the ring by its coefficients, and by its values at the roots of X^1024 + 1. A word stands for its residue modulo q.
pub type Element = [u16; DEGREE];

pub type Spectrum = [u16; DEGREE];

// The tables of factors stay slices, each with its fact in the contract. `forward` and `backward`, `scheme::check_key`, `core` and `decapsulate`,
// `secret_keys::read_secret_key` and `recovery::recover` are promised so (docs/PROMISES.md); a type that holds the tables would ask for more.
// Half the functions one way and half the other would be no plainer.

// ---- coefficients to values

// A copy of a, each word brought below q.
fn reduced(a: Element) -> Element
    ensures { result ≡ reduced q degree a }
{
    let mut r = [0u16; DEGREE];
    for i in 0..DEGREE {
        r[i] = modq::reduce(a[i]);
    }
    r
}

// The value of a at each root of X^1024 + 1. Two layers a turn, to and fro between two arrays.
pub fn forward(a: Element, w: &[u16]) -> Spectrum
    requires { w.now ≡ forward_factors }
    ensures { result ≡ spectrum_of a }
{
    let mut s = reduced(a);
    let mut t = [0u16; DEGREE];
    for k in 0..5 {
        butterflies::forward_layer(&mut t, &s, w, 2 * k);
        butterflies::forward_layer(&mut s, &t, w, 2 * k + 1);
    }
    s
}

// ---- values to coefficients

// A copy of a, each word divided by 1024 modulo q: 64 is Montgomery's form of 1 / 1024.
fn divided(a: Spectrum) -> Spectrum
    ensures { result ≡ scale q degree inverse_degree a }
{
    twiddles::scaled(64, a)
}

// Ten layers back: the first from a, each other from the one before.
fn backward_layers(a: Spectrum, w: &[u16]) -> Element
    requires below { Below q a }
    requires w_value { w.now ≡ backward_factors }
    ensures { result ≡ backward_layers a }
{
    let mut s = [0u16; DEGREE];
    let mut v = [0u32; HALF];
    let mut p = [0u16; DEGREE];
    butterflies::pairs(&mut v, &a);
    butterflies::halves(&mut p, &v);
    butterflies::backward_layer(&mut s, &p, w, 9);
    for k in 1..LAYERS {
        butterflies::pairs(&mut v, &s);
        butterflies::halves(&mut p, &v);
        butterflies::backward_layer(&mut s, &p, w, 9 - k);
    }
    s
}

// The polynomial with the values a.
pub fn backward(a: Spectrum, w: &[u16]) -> Element
    requires { w.now ≡ backward_factors }
    ensures { result ≡ coefficients_of a }
{
    backward_layers(divided(a), w)
}

// ---- products

// c × a, word by word.
pub fn multiple(c: u16, a: Element) -> Element
    ensures { result ≡ scale q degree c a }
{
    twiddles::scaled(modq::montgomery_form(c), a)
}

fn multiply(x: u16, y: u16) -> u16
    ensures { result ≡ mul_mod q x y }
{
    modq::montgomery_product(modq::montgomery_form(x), y)
}

// The values of a product, from those of its two factors.
pub fn pointwise(a: Spectrum, b: Spectrum) -> Spectrum
    ensures { result ≡ pointwise a b }
{
    let mut r = [0u16; DEGREE];
    for i in 0..DEGREE {
        r[i] = multiply(a[i], b[i]);
    }
    r
}

// The same, divided by 1024: 36794 is 2^22 modulo q, so the first product is Montgomery's form of x / 1024.
fn divided_product(x: u16, y: u16) -> u16
    ensures { result ≡ mul_mod q inverse_degree (mul_mod q x y) }
{
    modq::montgomery_product(modq::montgomery_product(36794, x), y)
}

fn divided_pointwise(a: Spectrum, b: Spectrum) -> Spectrum
    ensures { result ≡ scale q degree inverse_degree (pointwise a b) }
{
    let mut r = [0u16; DEGREE];
    for i in 0..DEGREE {
        r[i] = divided_product(a[i], b[i]);
    }
    r
}

// The polynomial whose values are the products of those in a and b. The division by 1024 is part of these products.
pub fn backward_product(a: Spectrum, b: Spectrum, w: &[u16]) -> Element
    requires { w.now ≡ backward_factors }
    ensures { result ≡ coefficients_of (pointwise a b) }
{
    backward_layers(divided_pointwise(a, b), w)
}
