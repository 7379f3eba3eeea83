// What the worked examples are made of: elements, records and streams.
#![tactic(auto)]

ghost use Rattle.std.specs.Prelude.{◌≡◌, ◌≤◌};
ghost use Rattle.example_records.specs.Made.{term, constant, secret_key, public_key, encapsulation, sealed_entry, stream};

use ntt::{DEGREE, Element};
use records::{
    ENCAPSULATION_LENGTH, PUBLIC_KEY_LENGTH, PUBLIC_KEY_MARK, SEALED_ENTRY_LENGTH,
    SEALED_ENTRY_MARK, SECRET_KEY_LENGTH, SECRET_KEY_MARK,
};
use sampling::STREAM_LENGTH;
use scheme::Encapsulation;

// ---- elements and records

// The polynomial c X^k, for k below 1,024, and else 0.
pub fn term(c: u16, k: usize) -> Element
    ensures { result ≡ term c k }
{
    let mut a = [0u16; DEGREE];
    if k < DEGREE {
        a[k] = c;
    }
    a
}

pub fn constant(c: u16) -> Element
    ensures { result ≡ constant c }
{
    term(c, 0)
}

// The secret key of the constants a and b, and s = 0.
pub fn secret_key(a: u16, b: u16) -> [u8; SECRET_KEY_LENGTH]
    ensures { result ≡ secret_key a b }
{
    let mut key = [0u8; SECRET_KEY_LENGTH];
    records::write_record(SECRET_KEY_MARK, 1, constant(a), constant(b), &mut key);
    key
}

pub fn public_key(a: u16, b: u16) -> [u8; PUBLIC_KEY_LENGTH]
    ensures { result ≡ public_key a b }
{
    let mut key = [0u8; PUBLIC_KEY_LENGTH];
    records::write_record(PUBLIC_KEY_MARK, 1, constant(a), constant(b), &mut key);
    key
}

pub fn encapsulation(c1: u16, c2: u16) -> [u8; ENCAPSULATION_LENGTH]
    ensures { result ≡ encapsulation c1 c2 }
{
    let mut c = [0u8; ENCAPSULATION_LENGTH];
    let pair = Encapsulation {
        c1: constant(c1),
        c2: constant(c2),
    };
    sealed_records::write_encapsulation(pair, &mut c);
    c
}

// A sealed entry whose body and tag are zeros.
pub fn sealed_entry(c1: u16, c2: u16) -> [u8; SEALED_ENTRY_LENGTH]
    ensures { result ≡ sealed_entry c1 c2 }
{
    let mut sealed = [0u8; SEALED_ENTRY_LENGTH];
    records::write_record(
        SEALED_ENTRY_MARK,
        1,
        constant(c1),
        constant(c2),
        &mut sealed,
    );
    sealed
}

// ---- streams

// A stream whose first words are of the bytes low and high, and the others zero. By index: what a slice ends as whose chunks of two bytes were
// written, the library's contracts do not say.
pub fn stream(words: usize, low: u8, high: u8) -> [u8; STREAM_LENGTH]
    requires { words ≤ 1344 }
    ensures { result ≡ stream words low high }
{
    let mut s = [0u8; STREAM_LENGTH];
    for k in 0..words {
        s[2 * k] = low;
        s[2 * k + 1] = high;
    }
    s
}
