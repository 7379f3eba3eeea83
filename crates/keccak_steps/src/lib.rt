// The step mappings theta, rho, pi and iota of Keccak-p[1600, 24], FIPS 202, section 3.2: the state, five planes of five lanes, goes in and out
// by value. Chi stands in `keccak_chi`.
#![tactic(auto)]

ghost use Rattle.std.specs.Prelude.{◌≡◌, [], ◌∷◌, ◌+◌, ◌*◌, ◌%◌, ◌<◌, get_or};
ghost use Rattle.std.specs.Int.Bits.{bit_xor};
ghost use Rattle.keccak_steps.specs.Steps.{lane, plane, rotate, parity, theta, rho, pi, iota};

// The lanes of two planes added.
pub fn xor_planes(p: [u64; 5], q: [u64; 5]) -> [u64; 5]
    ensures { result ≡ plane (λ x. bit_xor (get_or p x 0) (get_or q x 0)) }
{
    [
        p[0] ^ q[0],
        p[1] ^ q[1],
        p[2] ^ q[2],
        p[3] ^ q[3],
        p[4] ^ q[4],
    ]
}

// A lane turned by n places; the remainder is for n = 0.
fn rotate(v: u64, n: usize) -> u64
    requires { n < 64 }
    ensures { result ≡ rotate n v }
{
    (v << n) | (v >> ((64 - n) % 64))
}

// Algorithm 1, step 1.
fn parities(a: [[u64; 5]; 5]) -> [u64; 5]
    ensures { result ≡ plane (parity a) }
{
    xor_planes(
        xor_planes(xor_planes(xor_planes(a[0], a[1]), a[2]), a[3]),
        a[4],
    )
}

// Algorithm 1, step 2, from the parities.
fn effects(c: [u64; 5]) -> [u64; 5]
    ensures { result ≡ plane (λ x. bit_xor (get_or c ((x + 4) % 5) 0) (rotate 1 (get_or c ((x + 1) % 5) 0))) }
{
    [
        c[4] ^ rotate(c[1], 1),
        c[0] ^ rotate(c[2], 1),
        c[1] ^ rotate(c[3], 1),
        c[2] ^ rotate(c[4], 1),
        c[3] ^ rotate(c[0], 1),
    ]
}

// Algorithm 1. The order of the planes is the one that compiles to the fewest instructions.
pub fn theta(a: [[u64; 5]; 5]) -> [[u64; 5]; 5]
    ensures { result ≡ theta a }
{
    let d = effects(parities(a));
    let p2 = xor_planes(a[2], d);
    let p3 = xor_planes(a[3], d);
    let p4 = xor_planes(a[4], d);
    let p0 = xor_planes(a[0], d);
    let p1 = xor_planes(a[1], d);
    [p0, p1, p2, p3, p4]
}

// The lanes of a plane turned, each by its own number of places.
fn rotate_plane(p: [u64; 5], n0: usize, n1: usize, n2: usize, n3: usize, n4: usize) -> [u64; 5]
    requires { (n0 < 64) × (n1 < 64) × (n2 < 64) × (n3 < 64) × (n4 < 64) }
    ensures { result ≡ plane (λ x. rotate (get_or (n0 ∷ n1 ∷ n2 ∷ n3 ∷ n4 ∷ []) x 0) (get_or p x 0)) }
{
    [
        rotate(p[0], n0),
        rotate(p[1], n1),
        rotate(p[2], n2),
        rotate(p[3], n3),
        rotate(p[4], n4),
    ]
}

// Algorithm 2.
pub fn rho(a: [[u64; 5]; 5]) -> [[u64; 5]; 5]
    ensures { result ≡ rho a }
{
    [
        rotate_plane(a[0], 0, 1, 62, 28, 27),
        rotate_plane(a[1], 36, 44, 6, 55, 20),
        rotate_plane(a[2], 3, 10, 43, 25, 39),
        rotate_plane(a[3], 41, 45, 15, 21, 8),
        rotate_plane(a[4], 18, 2, 61, 56, 14),
    ]
}

// A plane of one lane from each plane, lane (x0, 0) first.
fn lanes_of(a: [[u64; 5]; 5], x0: usize, x1: usize, x2: usize, x3: usize, x4: usize) -> [u64; 5]
    requires { (x0 < 5) × (x1 < 5) × (x2 < 5) × (x3 < 5) × (x4 < 5) }
    ensures { result ≡ lane a x0 0 ∷ lane a x1 1 ∷ lane a x2 2 ∷ lane a x3 3 ∷ lane a x4 4 ∷ [] }
{
    let r0 = a[0];
    let r1 = a[1];
    let r2 = a[2];
    let r3 = a[3];
    let r4 = a[4];
    [r0[x0], r1[x1], r2[x2], r3[x3], r4[x4]]
}

// Algorithm 3.
pub fn pi(a: [[u64; 5]; 5]) -> [[u64; 5]; 5]
    ensures { result ≡ pi a }
{
    [
        lanes_of(a, 0, 1, 2, 3, 4),
        lanes_of(a, 3, 4, 0, 1, 2),
        lanes_of(a, 1, 2, 3, 4, 0),
        lanes_of(a, 4, 0, 1, 2, 3),
        lanes_of(a, 2, 3, 4, 0, 1),
    ]
}

// RC of each round, from algorithm 6.
static ROUND_CONSTANTS: [u64; 24] = [
    0x0000000000000001,
    0x0000000000008082,
    0x800000000000808A,
    0x8000000080008000,
    0x000000000000808B,
    0x0000000080000001,
    0x8000000080008081,
    0x8000000000008009,
    0x000000000000008A,
    0x0000000000000088,
    0x0000000080008009,
    0x000000008000000A,
    0x000000008000808B,
    0x800000000000008B,
    0x8000000000008089,
    0x8000000000008003,
    0x8000000000008002,
    0x8000000000000080,
    0x000000000000800A,
    0x800000008000000A,
    0x8000000080008081,
    0x8000000000008080,
    0x0000000080000001,
    0x8000000080008008,
];

// Algorithm 6.
pub fn iota(a: [[u64; 5]; 5], ir: usize) -> [[u64; 5]; 5]
    requires { ir < 24 }
    ensures { result ≡ iota ir a }
{
    let mut b = a;
    b[0][0] = b[0][0] ^ ROUND_CONSTANTS[ir];
    b
}
