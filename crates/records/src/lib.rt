// The records of document 01 and of document 02, No. 2 and 5, as bytes: their layout, what their checks answer, in order, and the front that keys
// and sealed entries share, read and written. Document 01's keys are written here; seeded_records, sealed_records, batch_records and triples have
// the other records.
// The calls test every length first, so the functions here are lent buffers of the record's length: slices with a clause, since C lends slices of any
// length, and arrays in their place would ask more.
#![tactic(auto)]

ghost use Rattle.std.specs.Prelude.{◌≡◌, ◌++◌, ◌≤◌, length, drop};
ghost use Rattle.answers.specs.Answers.{and_then};
ghost use Rattle.records.specs.Layout.{public_key_length, secret_key_length, third_place};
ghost use Rattle.records.specs.Records.{header_answer, place_answer, codes_answer, record_bytes, public_key_bytes, secret_key_bytes};
ghost use Rattle.records.specs.Read.{places_answer, pair_of};

use answers::{Answer, Refusal};
use encoding::{ELEMENT_LENGTH, HEADER_LENGTH, MARK_LENGTH, TERNARY_LENGTH};
use ntt::{DEGREE, Element};
use octets::BLOCK_LENGTH;

// ---- layout: marks, places and lengths

// "PDK", "PDS", "SDK" and "PLG".
pub const PUBLIC_KEY_MARK: [u8; MARK_LENGTH] = [80, 68, 75];

pub const SEEDED_KEY_MARK: [u8; MARK_LENGTH] = [80, 68, 83];

pub const SECRET_KEY_MARK: [u8; MARK_LENGTH] = [83, 68, 75];

pub const SEALED_ENTRY_MARK: [u8; MARK_LENGTH] = [80, 76, 71];

// Where the parts of a public key, a secret key and a sealed entry start: a or c1, b or c2, and s or the body.
pub const FIRST: usize = HEADER_LENGTH;

pub const SECOND: usize = FIRST + ELEMENT_LENGTH;

pub const THIRD: usize = SECOND + ELEMENT_LENGTH;

pub const TAG: usize = THIRD + BLOCK_LENGTH;

pub const PUBLIC_KEY_LENGTH: usize = THIRD;

// A seed, and where the parts of a seeded public key start: the seed, and b.
pub const SEED_LENGTH: usize = 32;

pub const SEED: usize = HEADER_LENGTH;

pub const SEEDED_B: usize = SEED + SEED_LENGTH;

pub const SEEDED_KEY_LENGTH: usize = SEEDED_B + ELEMENT_LENGTH;

pub const SECRET_KEY_LENGTH: usize = THIRD + TERNARY_LENGTH;

// The versions of a secret key. That of an expanded one has the inverse of b behind s.
pub const SECRET_KEY_VERSION: u16 = 1;

pub const EXPANDED_KEY_VERSION: u16 = 2;

pub const INVERSE: usize = SECRET_KEY_LENGTH;

pub const EXPANDED_KEY_LENGTH: usize = INVERSE + ELEMENT_LENGTH;

pub const SEALED_ENTRY_LENGTH: usize = TAG + BLOCK_LENGTH;

pub const ENCAPSULATION_LENGTH: usize = 2 * ELEMENT_LENGTH;

pub const TRIPLE_LENGTH: usize = 3 * TERNARY_LENGTH;

// ---- checks

// Mark and version.
pub fn check_header(bytes: &[u8], mark: [u8; MARK_LENGTH], version: u16) -> Answer
    ensures { result ≡ header_answer mark version bytes.now }
{
    if !encoding::has_mark(bytes, mark) {
        return Err(Refusal::WrongMark);
    }
    if encoding::version(bytes) != version {
        return Err(Refusal::WrongVersion);
    }
    Ok(())
}

// What an element's words are answered by, from the place of its first that is q or more; `refusal` names that word.
pub fn place_answer(place: usize, refusal: Refusal) -> Answer
    ensures { result ≡ place_answer place refusal }
{
    answers::unless(place == DEGREE, refusal)
}

// The place of the first word that is q or more in each of two elements, 1,024 where there is none, as `encoding::first_unreduced` gives it.
#[derive(Clone, Copy)]
pub struct Places {
    pub first: usize,
    pub second: usize,
}

// What the words of both are answered by; `first` and `second` name the words at these places. The crate that reads a record makes the names, in
// two lines; as closures they would be no plainer.
pub fn places_answer(unreduced: Places, first: Refusal, second: Refusal) -> Answer
    ensures { result ≡ places_answer unreduced first second }
{
    place_answer(unreduced.first, first)?;
    place_answer(unreduced.second, second)
}

// Whether no code is 3.
pub fn check_codes(bytes: &[u8]) -> Answer
    ensures { result ≡ codes_answer bytes.now }
{
    answers::unless(
        encoding::first_invalid_code(bytes) == DEGREE,
        Refusal::InvalidCode,
    )
}

// ---- readers

// Two elements, and where words are q or more.
#[derive(Clone, Copy)]
pub struct Pair {
    pub first: Element,
    pub second: Element,
    pub unreduced: Places,
}

// Those of a public key, or of the front of a secret key or of a sealed entry.
pub fn read_pair(bytes: &[u8]) -> Pair
    requires { third_place ≤ length bytes.now }
    ensures { result ≡ pair_of bytes.now }
{
    let first = encoding::decode_element(&bytes[FIRST..SECOND]);
    let second = encoding::decode_element(&bytes[SECOND..THIRD]);
    Pair {
        first,
        second,
        unreduced: Places {
            first: encoding::first_unreduced(first),
            second: encoding::first_unreduced(second),
        },
    }
}

// .. behind mark and version, which are checked first: of a public key, or of the front of a sealed entry.
pub fn read_record(bytes: &[u8], mark: [u8; MARK_LENGTH], version: u16) -> Result<Pair, Refusal>
    requires { third_place ≤ length bytes.now }
    ensures { result ≡ and_then (header_answer mark version bytes.now) (Ok (pair_of bytes.now)) }
{
    check_header(bytes, mark, version)?;
    Ok(read_pair(bytes))
}

// ---- writers

// The front of a record; the rest of the buffer stays as it came.
pub fn write_record(
    mark: [u8; MARK_LENGTH],
    version: u16,
    first: Element,
    second: Element,
    out: &mut [u8],
)
    requires { third_place ≤ length out.old }
    ensures { out.new ≡ record_bytes mark version first second ++ drop third_place out.old }
{
    encoding::encode_header(mark, version, &mut out[0..FIRST]);
    encoding::encode_element(first, &mut out[FIRST..SECOND]);
    encoding::encode_element(second, &mut out[SECOND..THIRD]);
}

pub fn write_public_key(a: Element, b: Element, out: &mut [u8])
    requires { length out.old ≡ public_key_length }
    ensures { out.new ≡ public_key_bytes a b }
{
    write_record(PUBLIC_KEY_MARK, 1, a, b, out);
}

pub fn write_secret_key(a: Element, b: Element, s: Element, out: &mut [u8])
    requires { length out.old ≡ secret_key_length }
    ensures { out.new ≡ secret_key_bytes a b s }
{
    write_record(SECRET_KEY_MARK, SECRET_KEY_VERSION, a, b, out);
    encoding::encode_ternary(s, &mut out[THIRD..SECRET_KEY_LENGTH]);
}
