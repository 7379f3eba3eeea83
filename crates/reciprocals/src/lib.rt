// Many reciprocals modulo q = 59,393 for the price of one: a tree of products, the reciprocal of its top, and the way back down.
// Every word is taken as its residue modulo q.
#![tactic(auto)]

ghost use Rattle.std.specs.Prelude.{◌≡◌, ◌≤◌, length, drop};
ghost use Rattle.ntt.specs.Spectrum.{degree};
ghost use Rattle.reciprocals.specs.Reciprocals.{has_zero, reciprocals_of, are_reciprocals};
ghost use Rattle.reciprocals.specs.Tree.{leaves_of, multiplied_level, products_of, inverted_level, inverses_of};

use ntt::{DEGREE, Spectrum};

// Whether q divides some entry: then there are no reciprocals. It looks at all of them, whatever it finds.
pub fn has_zero(t: Spectrum) -> bool
    ensures { result ≡ has_zero t }
{
    t.iter().fold(false, |any, x| any | (modq::reduce(*x) == 0))
}

// Whether the entries of x and y are reciprocal to each other: every product of two is 1. It looks at all of them, whatever it finds.
pub fn are_reciprocals(x: Spectrum, y: Spectrum) -> bool
    ensures { result ≡ are_reciprocals x y }
{
    let mut all = true;
    for (a, b) in x.iter().zip(&y) {
        all &= modq::mul(*a, *b) == 1;
    }
    all
}

// ---- the tree of products

// The tree's entries: entry 0 is on no level.
const TREE: usize = 2 * DEGREE;

// Level m of the tree, for m = 1, 2, 4, .., 1,024, is the m entries from m on, and entry m + j stands above 2 m + j and 3 m + j. So a level is
// made from its neighbour by a loop over entries in a row, and the compiler works on several at a time. The loops are by index: a level and its
// neighbour are parts of one array, and of what mutable iterators have written the library's contracts say nothing.

// The entries as the lowest level, under zeros.
fn leaves(t: Spectrum) -> [u16; TREE]
    ensures { result ≡ leaves_of t }
{
    let mut h = [0u16; TREE];
    h[DEGREE..].copy_from_slice(&t);
    h
}

fn multiply_level(h: &mut [u16; TREE], m: usize)
    requires { (length h.old ≡ 2048) × (m ≤ 512) }
    ensures { h.new ≡ multiplied_level m h.old }
{
    for j in 0..m {
        let x = h[2 * m + j];
        let y = h[3 * m + j];
        h[m + j] = modq::mul(x, y);
    }
}

// Each entry above the leaves is the product of the two below it.
fn products(h: &mut [u16; TREE])
    requires { length h.old ≡ 2048 }
    ensures { h.new ≡ products_of h.old }
{
    for k in 0..10usize {
        multiply_level(h, 1 << (9 - k));
    }
}

// An entry is x × y, so the reciprocal of x is that of the entry times y.
fn invert_level(r: &mut [u16; TREE], h: &[u16; TREE], m: usize)
    requires { (length r.old ≡ 2048) × (m ≤ 512) }
    ensures { r.new ≡ inverted_level m h.now r.old }
{
    for j in 0..m {
        let u = r[m + j];
        let x = h[2 * m + j];
        let y = h[3 * m + j];
        r[2 * m + j] = modq::mul(u, y);
        r[3 * m + j] = modq::mul(u, x);
    }
}

// The top's reciprocal is 0 where it has none, and then so are all.
fn inverses(h: &[u16; TREE]) -> [u16; TREE]
    ensures { result ≡ inverses_of h.now }
{
    let mut r = [0u16; TREE];
    r[1] = modq::reciprocal(h[1]);
    for k in 0..10usize {
        invert_level(&mut r, h, 1 << k);
    }
    r
}

fn lower_half(h: &[u16; TREE]) -> Spectrum
    requires { length h.now ≡ 2048 }
    ensures { result ≡ drop degree h.now }
{
    let mut r = [0u16; DEGREE];
    r.copy_from_slice(&h[DEGREE..]);
    r
}

// The reciprocal of every entry; 1,024 zeros where q divides one of them, since the top of the tree is then 0. So it
// stands in the definition `reciprocals_of`, by which the theorems go; `ring::inverse` makes an option of it.
pub fn reciprocals(t: Spectrum) -> Spectrum
    ensures { result ≡ reciprocals_of t }
{
    let mut h = leaves(t);
    products(&mut h);
    let r = inverses(&h);
    lower_half(&r)
}
