// Secret keys of either version read off the bytes that a call was lent: checked in the order of documents 01 and 02, and prepared for the
// scheme. The version sets the length. Nothing is read behind a check that fails.
#![tactic(auto)]

ghost use Rattle.std.specs.Prelude.{◌≡◌, not, eqb, length};
ghost use Rattle.ring.specs.Reciprocals.{has_zero};
ghost use Rattle.ntt.specs.Factors.{forward_factors, backward_factors};
ghost use Rattle.answers.specs.declared.KeyRecord.TheVariants as Kind;
ghost use Rattle.answers.specs.declared.Refusal.TheVariants.{NotInvertible};
ghost use Rattle.answers.specs.Answers.{unless, and_then, Done};
ghost use Rattle.records.specs.Layout.{expanded_key_version};
ghost use Rattle.records.specs.Records.{a_word, b_word, inverse_word, place_answer};
ghost use Rattle.records.specs.Read.{places_answer};
ghost use Rattle.secret_keys.specs.SecretKeys.{is_expanded, length_of, layout_answer, elements_of, stored_words_answer, secret_answer};
ghost use Rattle.secret_keys.specs.Read.{stored_in, parts_answer, parts_in, inverse_by, inverse_answer, stored_spectrum, spectra_of};

use answers::{Answer, KeyPart, KeyRecord, Refusal};
use ntt::{Element, Spectrum};
use records::{
    EXPANDED_KEY_LENGTH, EXPANDED_KEY_VERSION, INVERSE, Places, SECRET_KEY_LENGTH, SECRET_KEY_MARK,
    SECRET_KEY_VERSION, THIRD,
};
pub use scheme::SecretKey;

// ---- mark, version and length

// The length that a version sets.
fn version_length(version: u16) -> usize
    ensures { result ≡ length_of (eqb version expanded_key_version) }
{
    if version == EXPANDED_KEY_VERSION {
        return EXPANDED_KEY_LENGTH;
    }
    SECRET_KEY_LENGTH
}

// 2, 3, then 1 for a length that is not that of the version.
fn check_layout(bytes: &[u8]) -> Answer
    ensures { result ≡ layout_answer bytes.now }
{
    let version = encoding::version(bytes);
    let known = (version == SECRET_KEY_VERSION) | (version == EXPANDED_KEY_VERSION);
    let size = version_length(version);
    answers::unless(
        encoding::has_mark(bytes, SECRET_KEY_MARK),
        Refusal::WrongMark,
    )?;
    answers::unless(known, Refusal::WrongVersion)?;
    answers::unless(bytes.len() == size, Refusal::WrongLength)
}

// ---- what stands behind them

// What the words of a and b are answered by; the first that is q or more is named.
fn words_answer(at: Places) -> Answer
    ensures { result ≡ places_answer at (a_word Kind.SecretKey at.first) (b_word Kind.SecretKey at.second) }
{
    let a = KeyRecord::SecretKey(KeyPart::A(at.first));
    let b = KeyRecord::SecretKey(KeyPart::B(at.second));
    records::places_answer(at, Refusal::KeyOutOfRange(a), Refusal::KeyOutOfRange(b))
}

// .. and those of the stored inverse.
fn inverse_words_answer(at: usize) -> Answer
    ensures { result ≡ place_answer at (inverse_word at) }
{
    let word = KeyRecord::SecretKey(KeyPart::StoredInverse(at));
    records::place_answer(at, Refusal::KeyOutOfRange(word))
}

// The inverse of b that version 2 stores, once its words are checked.
fn read_stored(bytes: &[u8]) -> Result<Option<Element>, Refusal>
    requires { length bytes.now ≡ length_of (is_expanded bytes.now) }
    ensures { result ≡ and_then (stored_words_answer (is_expanded bytes.now) bytes.now) (Ok (stored_in (is_expanded bytes.now) bytes.now)) }
{
    if encoding::version(bytes) != EXPANDED_KEY_VERSION {
        return Ok(None);
    }
    let stored = encoding::decode_element(&bytes[INVERSE..EXPANDED_KEY_LENGTH]);
    inverse_words_answer(encoding::first_unreduced(stored))?;
    Ok(Some(stored))
}

// a, b and s, and the inverse of b that version 2 stores.
#[derive(Clone, Copy)]
struct Parts {
    a: Element,
    b: Element,
    s: Element,
    stored: Option<Element>,
}

// .. once words and codes are checked.
fn read_parts(bytes: &[u8]) -> Result<Parts, Refusal>
    requires { length bytes.now ≡ length_of (is_expanded bytes.now) }
    ensures { result ≡ and_then (parts_answer (is_expanded bytes.now) bytes.now) (Ok (parts_in (is_expanded bytes.now) bytes.now)) }
{
    let pair = records::read_pair(bytes);
    words_answer(pair.unreduced)?;
    let stored = read_stored(bytes)?;
    records::check_codes(&bytes[THIRD..SECRET_KEY_LENGTH])?;
    let a = pair.first;
    let b = pair.second;
    let s = encoding::decode_ternary(&bytes[THIRD..SECRET_KEY_LENGTH]);
    Ok(Parts { a, b, s, stored })
}

// ---- the inverse of b, whose spectrum is lent

// Version 2 stores it. Its spectrum, which an opening needs anyway, tells whether it is that of b.
fn stored_spectrum(stored: Element, b: Spectrum, forward: &[u16]) -> Result<Spectrum, Refusal>
    requires { forward.now ≡ forward_factors }
    ensures { result ≡ stored_spectrum stored b }
{
    let inverse = ntt::forward(stored, forward);
    let found = ring::are_inverses(b, inverse);
    answers::unless(found, Refusal::InverseMismatch)?;
    Ok(inverse)
}

// Version 1: whether there is one.
fn check_invertible(b: Spectrum) -> Answer
    ensures { result ≡ unless (not (has_zero b)) NotInvertible Done }
{
    answers::unless(!ring::has_zero(b), Refusal::NotInvertible)
}

// Of either version. In version 1 it is worked out.
fn read_inverse(stored: Option<Element>, b: Spectrum, forward: &[u16]) -> Result<Spectrum, Refusal>
    requires { forward.now ≡ forward_factors }
    ensures { result ≡ inverse_by stored b }
{
    if let Some(inverse) = stored {
        return stored_spectrum(inverse, b, forward);
    }
    check_invertible(b)?;
    Ok(ring::reciprocals(b))
}

// What is answered to it: the key check needs no inverse, so in version 1 none is worked out.
fn check_inverse(stored: Option<Element>, b: Spectrum, forward: &[u16]) -> Answer
    requires { forward.now ≡ forward_factors }
    ensures { result ≡ inverse_answer stored b }
{
    if let Some(inverse) = stored {
        stored_spectrum(inverse, b, forward)?;
        return Ok(());
    }
    check_invertible(b)
}

// ---- either version

// The spectra of a, b, s and of the inverse of b, where every check passes.
pub fn read_secret_key(
    bytes: &[u8],
    forward: &[u16],
    backward: &[u16],
) -> Result<SecretKey, Refusal>
    requires { (forward.now ≡ forward_factors) × (backward.now ≡ backward_factors) }
    ensures { result ≡ and_then (secret_answer bytes.now) (Ok (spectra_of (elements_of bytes.now))) }
{
    check_layout(bytes)?;
    let parts = read_parts(bytes)?;
    let key = scheme::check_key(parts.a, parts.b, parts.s, forward, backward);
    let inverse = read_inverse(parts.stored, key.b, forward)?;
    answers::unless(key.matches, Refusal::KeyMismatch)?;
    let a = key.a;
    let b = key.b;
    let s = key.s;
    Ok(SecretKey { a, b, s, inverse })
}

// Its checks alone.
pub fn check_secret_key(bytes: &[u8], forward: &[u16], backward: &[u16]) -> Answer
    requires { (forward.now ≡ forward_factors) × (backward.now ≡ backward_factors) }
    ensures { result ≡ secret_answer bytes.now }
{
    check_layout(bytes)?;
    let parts = read_parts(bytes)?;
    let checked = scheme::check_key(parts.a, parts.b, parts.s, forward, backward);
    check_inverse(parts.stored, checked.b, forward)?;
    answers::unless(checked.matches, Refusal::KeyMismatch)
}
