// Public keys read off the bytes that a call was lent: checked in the order of documents 01 and 02, and prepared for the scheme. The length
// picks the record. The calls test every length first, so the readers are lent a buffer of one of the two lengths.
#![tactic(auto)]

ghost use Rattle.std.specs.Prelude.{◌≡◌, true, length};
ghost use Rattle.ntt.specs.Factors.{forward_factors};
ghost use Rattle.scheme.specs.Answers as Struct;
ghost use Rattle.answers.specs.declared.KeyRecord.TheVariants as Kind;
ghost use Rattle.answers.specs.Answers.{and_then};
ghost use Rattle.records.specs.Layout.{public_key_length, seeded_key_length};
ghost use Rattle.records.specs.Records.{a_word, b_word};
ghost use Rattle.records.specs.Read.{places_answer};
ghost use Rattle.public_keys.specs.PublicKeys.{is_public_length, public_a, public_b, public_record_answer, public_stream_answer, public_answer};
ghost use Rattle.public_keys.specs.Read.{parts_answer, parts_of};

use answers::{Answer, KeyPart, KeyRecord, Refusal};
use ntt::{DEGREE, Element};
use records::{PUBLIC_KEY_LENGTH, PUBLIC_KEY_MARK, Places, SEED, SEEDED_B, SEEDED_KEY_LENGTH};
pub use scheme::PublicKey;

// Whether a public key may have this length.
pub fn is_public_length(size: usize) -> bool
    ensures { result ≡ is_public_length size }
{
    (size == PUBLIC_KEY_LENGTH) | (size == SEEDED_KEY_LENGTH)
}

// ---- the record

#[derive(Clone, Copy)]
struct Parts {
    a: Element,
    b: Element,
}

// What the words of a record with the mark "PDK" are answered by; the first that is q or more is named.
fn front_answer(at: Places) -> Answer
    ensures { result ≡ places_answer at (a_word Kind.PublicKey at.first) (b_word Kind.PublicKey at.second) }
{
    let a = KeyRecord::PublicKey(KeyPart::A(at.first));
    let b = KeyRecord::PublicKey(KeyPart::B(at.second));
    records::places_answer(at, Refusal::KeyOutOfRange(a), Refusal::KeyOutOfRange(b))
}

// Of such a record.
fn read_long(bytes: &[u8]) -> Result<Parts, Refusal>
    requires { length bytes.now ≡ public_key_length }
    ensures { result ≡ and_then (parts_answer bytes.now) (Ok (parts_of bytes.now)) }
{
    let read = records::read_record(bytes, PUBLIC_KEY_MARK, 1)?;
    front_answer(read.unreduced)?;
    let a = read.first;
    let b = read.second;
    Ok(Parts { a, b })
}

// Of a record with the mark "PDS". Its stream is expanded behind its other checks.
fn read_seeded(bytes: &[u8]) -> Result<Parts, Refusal>
    requires { length bytes.now ≡ seeded_key_length }
    ensures { result ≡ and_then (parts_answer bytes.now) (Ok (parts_of bytes.now)) }
{
    let b = seeded_records::read_seeded_key(bytes)?;
    let u = seeds::element(&bytes[SEED..SEEDED_B]);
    answers::unless(u.count == DEGREE, Refusal::StreamExhausted)?;
    let a = u.value;
    Ok(Parts { a, b })
}

// Of either.
fn read_parts(bytes: &[u8]) -> Result<Parts, Refusal>
    requires { is_public_length (length bytes.now) ≡ true }
    ensures { result ≡ and_then (parts_answer bytes.now) (Ok (parts_of bytes.now)) }
{
    if bytes.len() == SEEDED_KEY_LENGTH {
        return read_seeded(bytes);
    }
    read_long(bytes)
}

// ---- the key

// The spectra of a and b.
pub fn read_public_key(bytes: &[u8], forward: &[u16]) -> Result<PublicKey, Refusal>
    requires { (is_public_length (length bytes.now) ≡ true) × (forward.now ≡ forward_factors) }
    ensures { result ≡ and_then (public_answer bytes.now) (Ok (Struct.public_key (public_a bytes.now) (public_b bytes.now))) }
{
    let read = read_parts(bytes)?;
    scheme::public_key(read.a, read.b, forward).ok_or(Refusal::NotInvertible)
}
