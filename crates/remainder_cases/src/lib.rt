// When a case of a word's remainder agrees: its centred value, and the remainder and the quotient of that by 5.
#![tactic(auto)]

ghost use Rattle.std.specs.Prelude.{◌≡◌};
ghost use Rattle.remainder_cases.specs.Remainders.{signed, integers_agree, remainder_agrees};

// The integer that a word stands for in two's complement.
fn signed(x: u32) -> i32
    ensures { result ≡ signed x }
{
    x.cast_signed()
}

// Of a word, its centred value m, the remainder r and the quotient k of m.
fn integers_agree(w: u16, m: u32, r: u32, k: u32) -> bool
    ensures { result ≡ integers_agree w m r k }
{
    let found = ring::centred(w);
    let d = ring::centred_division(found);
    (found as i32 == signed(m))
        & (d.remainder as i32 == signed(r))
        & (d.quotient as i32 == signed(k))
}

pub fn remainder_agrees(text: &[u8]) -> bool
    ensures { result ≡ remainder_agrees text.now }
{
    let w = vectors::number(text, 0);
    if w >= 65536 {
        return false;
    }
    let m = vectors::number(text, 3);
    let r = vectors::number(text, 4);
    let k = vectors::number(text, 5);
    (vectors::number(text, 1) == 0) & integers_agree(w as u16, m, r, k)
}
