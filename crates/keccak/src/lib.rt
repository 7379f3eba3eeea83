// Keccak-p[1600, 24] of FIPS 202, sections 3.3 and 3.4: the round, and the 24 rounds, on the state by value.
//
// Six lanes of the state are held complemented between the rounds, as chi takes them.
#![tactic(auto)]

ghost use Rattle.std.specs.Prelude.{◌≡◌, ◌+◌, ◌*◌, ◌<◌};
ghost use Rattle.keccak.specs.Keccak.{keccak_f};
ghost use Rattle.keccak.specs.Complementing.{complemented_round};

// Section 3.3: Rnd on complemented lanes.
fn round(a: [[u64; 5]; 5], ir: usize) -> [[u64; 5]; 5]
    requires { ir < 24 }
    ensures { result ≡ complemented_round ir a }
{
    let linear = keccak_steps::pi(keccak_steps::rho(keccak_steps::theta(a)));
    keccak_steps::iota(keccak_chi::chi(linear), ir)
}

// Two rounds, which the compiler writes out one after the other: so no lane is moved back to its place between them.
fn two_rounds(a: [[u64; 5]; 5], i: usize) -> [[u64; 5]; 5]
    requires { i < 12 }
    ensures { result ≡ complemented_round (2 * i + 1) (complemented_round (2 * i) a) }
{
    let mut s = a;
    for j in 0..2 {
        let t = round(s, 2 * i + j);
        s = t;
    }
    s
}

// Algorithm 7, with 24 rounds.
pub fn keccak_f(a: [[u64; 5]; 5]) -> [[u64; 5]; 5]
    ensures { result ≡ keccak_f a }
{
    let mut s = keccak_chi::complemented(a);
    for i in 0..12 {
        let t = two_rounds(s, i);
        s = t;
    }
    keccak_chi::complemented(s)
}
