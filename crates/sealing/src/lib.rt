// The calls of a console, which is lent a public key of either kind. Buffers may have any length; under any answer but Done every output
// is as it came.
#![tactic(auto)]

ghost use Rattle.std.specs.Prelude.{◌≡◌, true, length};
ghost use Rattle.answers.specs.Answers.{and_then};
ghost use Rattle.records.specs.Layout.{triple_length};
ghost use Rattle.triples.specs.Triple.{triple_of, triple_answer};
ghost use Rattle.public_keys.specs.PublicKeys.{is_public_length, public_a, public_b, public_answer};
ghost use Rattle.keys.specs.Keys.{triple_noise_length};
ghost use Rattle.sealing.specs.Parts.{encapsulation, prepared};
ghost use Rattle.calls.specs.Calls.{encapsulate_answer, encapsulate_out, seal_answer, seal_out};

use answers::{Answer, Refusal};
use keys::TRIPLE_NOISE_LENGTH;
use ntt::FACTORS;
use octets::BLOCK_LENGTH;
use records::{ENCAPSULATION_LENGTH, SEALED_ENTRY_LENGTH, TRIPLE_LENGTH};
use scheme::{Encapsulation, Triple};

// ---- encapsulate

// Of records with the right lengths.
fn encapsulate_records(key: &[u8], triple: &[u8]) -> Result<Encapsulation, Refusal>
    requires { (is_public_length (length key.now) ≡ true) × (length triple.now ≡ triple_length) }
    ensures { result ≡ and_then (and_then (public_answer key.now) (triple_answer triple.now)) (Ok (encapsulation (public_a key.now) (public_b key.now) (triple_of triple.now))) }
{
    let mut forward = [0u16; FACTORS];
    let mut backward = [0u16; FACTORS];
    ntt::forward_factors(&mut forward);
    let k = public_keys::read_public_key(key, &forward)?;
    triples::check_triple(triple)?;
    let t = triples::read_triple(triple);
    ntt::backward_factors(&mut backward);
    Ok(scheme::encapsulate(k, t, &forward, &backward))
}

// (c1, c2) = (a × r + e1, b × r + e2), of a triple (r, e1, e2). TRIPLE_LENGTH bytes give ENCAPSULATION_LENGTH.
pub fn encapsulate(key: &[u8], triple: &[u8], out: &mut [u8]) -> Answer
    ensures value { result ≡ encapsulate_answer key.now triple.now (length out.old) }
    ensures out_after { out.new ≡ encapsulate_out key.now triple.now out.old }
{
    let fits = public_keys::is_public_length(key.len())
        & (triple.len() == TRIPLE_LENGTH)
        & (out.len() == ENCAPSULATION_LENGTH);
    if !fits {
        return Err(Refusal::WrongLength);
    }
    let c = encapsulate_records(key, triple)?;
    sealed_records::write_encapsulation(c, out);
    Ok(())
}

// ---- what sealing an entry and sealing a batch share

// An encapsulation by a triple from noise, with that triple.
#[derive(Clone, Copy)]
pub struct Prepared {
    pub c: Encapsulation,
    pub triple: Triple,
}

// For a key and noise with the right lengths.
pub fn encapsulate_noise(key: &[u8], noise: &[u8]) -> Result<Prepared, Refusal>
    requires { (is_public_length (length key.now) ≡ true) × (length noise.now ≡ triple_noise_length) }
    ensures { result ≡ and_then (public_answer key.now) (Ok (prepared key.now noise.now)) }
{
    let mut forward = [0u16; FACTORS];
    let mut backward = [0u16; FACTORS];
    ntt::forward_factors(&mut forward);
    let k = public_keys::read_public_key(key, &forward)?;
    let t = keys::noise_triple(noise);
    ntt::backward_factors(&mut backward);
    let c = scheme::encapsulate(k, t, &forward, &backward);
    Ok(Prepared { c, triple: t })
}

// ---- seal

// (c1, c2) = (a × r + e1, b × r + e2), by the triple of TRIPLE_NOISE_LENGTH bytes, then body = entry xor keystream and tag = K1 × body + K2 of
// what that triple derives. BLOCK_LENGTH bytes give SEALED_ENTRY_LENGTH.
pub fn seal(key: &[u8], noise: &[u8], entry: &[u8], out: &mut [u8]) -> Answer
    ensures value { result ≡ seal_answer key.now noise.now entry.now (length out.old) }
    ensures out_after { out.new ≡ seal_out key.now noise.now entry.now out.old }
{
    let fits = public_keys::is_public_length(key.len())
        & (noise.len() == TRIPLE_NOISE_LENGTH)
        & (entry.len() == BLOCK_LENGTH)
        & (out.len() == SEALED_ENTRY_LENGTH);
    if !fits {
        return Err(Refusal::WrongLength);
    }
    let p = encapsulate_noise(key, noise)?;
    let mut body = [0u8; BLOCK_LENGTH];
    let tag = derivation::protect(p.triple, &entry[0..0], entry, &mut body);
    sealed_records::write_sealed_entry(p.c, body, tag, out);
    Ok(())
}
