// The step mapping chi of Keccak-p[1600, 24], FIPS 202, section 3.2, on a state that goes in and out by value.
//
// Six lanes are held complemented between the rounds: with them chi takes five complements in place of 25 ("lane complementing" of the Keccak
// implementation overview). Theta, rho and pi only add lanes and turn them, so they carry complements along.
#![tactic(auto)]

ghost use Rattle.std.specs.Prelude.{◌≡◌};
ghost use Rattle.keccak_chi.specs.Complementing.{marks, complemented_by, complemented_chi_plane, complemented_chi};

const ONES: u64 = 0xFFFFFFFFFFFFFFFF;

// The six lanes complemented.
pub fn complemented(a: [[u64; 5]; 5]) -> [[u64; 5]; 5]
    ensures { result ≡ complemented_by marks a }
{
    [
        keccak_steps::xor_planes(a[0], [0, ONES, ONES, 0, 0]),
        keccak_steps::xor_planes(a[1], [0, 0, 0, ONES, 0]),
        keccak_steps::xor_planes(a[2], [0, 0, ONES, 0, 0]),
        keccak_steps::xor_planes(a[3], [0, 0, ONES, 0, 0]),
        keccak_steps::xor_planes(a[4], [ONES, 0, 0, 0, 0]),
    ]
}

// Algorithm 4 on plane 0, complemented in part before and after: a function a plane, since each has its complements at lanes of its own.
fn chi_0(p: [u64; 5]) -> [u64; 5]
    ensures { result ≡ complemented_chi_plane 0 p }
{
    let b0 = p[0];
    let b1 = p[1];
    let b2 = p[2];
    let b3 = p[3];
    let b4 = p[4];
    [
        b0 ^ (b1 | b2),
        b1 ^ (!b2 | b3),
        b2 ^ (b3 & b4),
        b3 ^ (b4 | b0),
        b4 ^ (b0 & b1),
    ]
}

// Algorithm 4 on plane 1.
fn chi_1(p: [u64; 5]) -> [u64; 5]
    ensures { result ≡ complemented_chi_plane 1 p }
{
    let b0 = p[0];
    let b1 = p[1];
    let b2 = p[2];
    let b3 = p[3];
    let b4 = p[4];
    [
        b0 ^ (b1 | b2),
        b1 ^ (b2 & b3),
        b2 ^ (b3 | !b4),
        b3 ^ (b4 | b0),
        b4 ^ (b0 & b1),
    ]
}

// Algorithm 4 on plane 2.
fn chi_2(p: [u64; 5]) -> [u64; 5]
    ensures { result ≡ complemented_chi_plane 2 p }
{
    let b0 = p[0];
    let b1 = p[1];
    let b2 = p[2];
    let b3 = p[3];
    let b4 = p[4];
    [
        b0 ^ (b1 | b2),
        b1 ^ (b2 & b3),
        b2 ^ (!b3 & b4),
        !b3 ^ (b4 | b0),
        b4 ^ (b0 & b1),
    ]
}

// Algorithm 4 on plane 3.
fn chi_3(p: [u64; 5]) -> [u64; 5]
    ensures { result ≡ complemented_chi_plane 3 p }
{
    let b0 = p[0];
    let b1 = p[1];
    let b2 = p[2];
    let b3 = p[3];
    let b4 = p[4];
    [
        b0 ^ (b1 & b2),
        b1 ^ (b2 | b3),
        b2 ^ (!b3 | b4),
        !b3 ^ (b4 & b0),
        b4 ^ (b0 | b1),
    ]
}

// Algorithm 4 on plane 4.
fn chi_4(p: [u64; 5]) -> [u64; 5]
    ensures { result ≡ complemented_chi_plane 4 p }
{
    let b0 = p[0];
    let b1 = p[1];
    let b2 = p[2];
    let b3 = p[3];
    let b4 = p[4];
    [
        b0 ^ (!b1 & b2),
        !b1 ^ (b2 | b3),
        b2 ^ (b3 & b4),
        b3 ^ (b4 | b0),
        b4 ^ (b0 & b1),
    ]
}

// Algorithm 4, which works on each plane by itself. The order of the planes is the one that compiles to the fewest instructions.
pub fn chi(a: [[u64; 5]; 5]) -> [[u64; 5]; 5]
    ensures { result ≡ complemented_chi a }
{
    let p3 = chi_3(a[3]);
    let p1 = chi_1(a[1]);
    let p2 = chi_2(a[2]);
    let p4 = chi_4(a[4]);
    let p0 = chi_0(a[0]);
    [p0, p1, p2, p3, p4]
}
