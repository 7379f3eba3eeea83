// Arithmetic modulo q = 59,393. Every u16 is taken, as its residue, but where a name or a contract says reduced; every result is below q. A word
// that is reduced stays a word with a clause: arrays of words go through the transform, which takes any words.
#![tactic(auto)]

ghost use Rattle.std.specs.Prelude.{◌≡◌, ◌*◌, ◌/◌, ◌%◌, ◌<◌, ◌≤◌};
ghost use Rattle.algebra.specs.Numbers.{add_mod, sub_mod, mul_mod};
ghost use Rattle.modq.specs.Modulus.{q, reciprocal_of};
ghost use Rattle.modq.specs.Montgomery.{montgomery_form, montgomery_product};

// q, and q at another width.
pub const Q: u16 = 59393;

pub const Q_U32: u32 = Q as u32;

// A word is below 2 q.
pub fn reduce(x: u16) -> u16
    ensures { result ≡ x % q }
{
    if Q <= x { x - Q } else { x }
}

// Of words that are reduced already. What is borrowed is chosen before the difference is made: so every step fits a word, and the
// compiler works on eight words at a time.
pub fn sub_reduced(a: u16, b: u16) -> u16
    requires { (a < q) × (b ≤ q) }
    ensures { result ≡ sub_mod q a b }
{
    let borrowed = if a < b { Q_U32 } else { 0u32 };
    (a as u32 + borrowed - b as u32) as u16
}

pub fn add_reduced(a: u16, b: u16) -> u16
    requires { (a < q) × (b < q) }
    ensures { result ≡ add_mod q a b }
{
    sub_reduced(a, Q - b)
}

pub fn add(a: u16, b: u16) -> u16
    ensures { result ≡ add_mod q a b }
{
    add_reduced(reduce(a), reduce(b))
}

pub fn sub(a: u16, b: u16) -> u16
    ensures { result ≡ sub_mod q a b }
{
    sub_reduced(reduce(a), reduce(b))
}

pub fn mul(a: u16, b: u16) -> u16
    ensures { result ≡ mul_mod q a b }
{
    (a as u32 * b as u32 % Q_U32) as u16
}

// ---- products by a factor in Montgomery's form, 2^16 times the factor: no division, and eight words at a time

fn high(a: u16, b: u16) -> u16
    ensures { result ≡ a * b / 65536 }
{
    (a as u32 * b as u32 / 65536) as u16
}

fn low(a: u16, b: u16) -> u16
    ensures { result ≡ (a * b) % 65536 }
{
    (a as u32 * b as u32 % 65536) as u16
}

// The high half of m q, where m is w y / q modulo 2^16 (6145 is 1 / q). The low half of m q is that of w y, so w y - m q is
// 2^16 times high(w, y) - reduction(w, y).
fn reduction(w: u16, y: u16) -> u16
    ensures { result ≡ ((((w * y) % 65536) * 6145) % 65536) * q / 65536 }
{
    high(low(low(w, y), 6145), Q)
}

pub fn montgomery_product(w: u16, y: u16) -> u16
    requires { w < q }
    ensures { result ≡ montgomery_product w y }
{
    sub_reduced(high(w, y), reduction(w, y))
}

// 21894 is 2^32 modulo q, Montgomery's form of 2^16.
pub fn montgomery_form(x: u16) -> u16
    ensures { result ≡ montgomery_form x }
{
    montgomery_product(21894, x)
}

// ---- reciprocals

// The reciprocal of x modulo q, and 0 where there is none: a number, as the definition `reciprocal_of` has it, and the tree of products needs. For the
// residue y of x, q = y × (q / y) + q % y, so the reciprocal of y is - (q / y) times that of q % y, and the residues fall.
pub fn reciprocal(x: u16) -> u16
    ensures { result ≡ reciprocal_of x }
{
    let y = x % Q;
    if y <= 1 {
        return y;
    }
    mul(Q - Q / y, reciprocal(Q % y))
}
