// The calls of a desk that open, which is lent a secret key. Buffers may have any length; under any answer but Done every output is as it came.
#![tactic(auto)]

ghost use Rattle.std.specs.Prelude.{◌≡◌, ◌++◌, ◌%◌, ◌≤◌, length};
ghost use Rattle.derivation.specs.Derivation.{under_keystream};
ghost use Rattle.answers.specs.Answers.{number, and_then, on_done};
ghost use Rattle.records.specs.Layout.{third_place, encapsulation_length, triple_length, block_length};
ghost use Rattle.records.specs.Records.{body_part, tag_part};
ghost use Rattle.keys.specs.Keys.{triple_noise_length};
ghost use Rattle.calls.specs.Calls.{decapsulate_answer, decapsulate_out, opened_entry, open_answer, open_out};
ghost use Rattle.calls.specs.Promises.{DecapsulateExact, OpenExact};
ghost use Rattle.recovery.specs.Outcomes.{answered, with_parts, recovered_with};
ghost use Rattle.opening.specs.Parts.{decapsulated_outcome, decapsulated_answer, opened_outcome, opened_quotients, read_answer, sealed_answer, opened_with, entry_read_answer};

use answers::{Answer, Refusal};
use encoding::HEADER_LENGTH;
use keys::TRIPLE_NOISE_LENGTH;
use ntt::FACTORS;
use octets::BLOCK_LENGTH;
use records::{ENCAPSULATION_LENGTH, SEALED_ENTRY_LENGTH, TAG, THIRD, TRIPLE_LENGTH};
use recovery::Recovered;
use ring::Quotients;
use scheme::Triple;
use sealed_records::SEALED_ENTRY_VERSION;

// ---- decapsulate

// Of an encapsulation and a dummy with the right lengths, with a key of any.
fn decapsulate_records(key: &[u8], encapsulation: &[u8], dummy: &[u8]) -> Result<Triple, Refusal>
    requires { (length encapsulation.now ≡ encapsulation_length) × (length dummy.now ≡ triple_length) }
    ensures { result ≡ and_then (decapsulated_answer key.now encapsulation.now dummy.now) (Ok (with_parts (answered (decapsulated_outcome key.now encapsulation.now dummy.now)))) }
{
    let mut forward = [0u16; FACTORS];
    let mut backward = [0u16; FACTORS];
    ntt::forward_factors(&mut forward);
    ntt::backward_factors(&mut backward);
    let secret = secret_keys::read_secret_key(key, &forward, &backward)?;
    let c = sealed_records::read_encapsulation(encapsulation)?;
    triples::check_triple(dummy)?;
    let t = triples::read_triple(dummy);
    recovery::find_triple(secret, c, t, &forward, &backward)
}

// The ternary (r, e1, e2) with (c1, c2) = (a × r + e1, b × r + e2), whatever the dummy. ENCAPSULATION_LENGTH bytes give TRIPLE_LENGTH.
pub fn decapsulate(key: &[u8], encapsulation: &[u8], dummy: &[u8], out: &mut [u8]) -> Answer
    ensures value { result ≡ decapsulate_answer key.now encapsulation.now dummy.now (length out.old) }
    ensures out_after { out.new ≡ decapsulate_out key.now encapsulation.now dummy.now out.old }
    ensures decapsulate_exact { DecapsulateExact key.now encapsulation.now dummy.now out.old (number result) out.new }
{
    let fits = (HEADER_LENGTH <= key.len())
        & (encapsulation.len() == ENCAPSULATION_LENGTH)
        & (dummy.len() == TRIPLE_LENGTH)
        & (out.len() == TRIPLE_LENGTH);
    if !fits {
        return Err(Refusal::WrongLength);
    }
    let t = decapsulate_records(key, encapsulation, dummy)?;
    triples::write_triple(t, out);
    Ok(())
}

// ---- what openings of sealed entries and of batches share. `version` is the record's, and `between` what is answered between its header and
// its words; the tag is that of the blocks in `front`, of which a single entry has none, and of the body

// With a key of any length and a dummy from noise.
fn recover_sealed(
    key: &[u8],
    sealed: &[u8],
    version: u16,
    between: Answer,
    noise: &[u8],
    front: &[u8],
    body: &[u8],
    tag: &[u8],
) -> Result<Recovered, Refusal>
    requires { (third_place ≤ length sealed.now) × (length noise.now ≡ triple_noise_length) × (length front.now % 16 ≡ 0) × (length tag.now ≡ block_length) }
    ensures { result ≡ and_then (read_answer key.now sealed.now version between) (Ok (recovered_with (opened_outcome key.now sealed.now noise.now) (front.now ++ body.now) tag.now (opened_quotients key.now sealed.now noise.now))) }
{
    let mut forward = [0u16; FACTORS];
    let mut backward = [0u16; FACTORS];
    ntt::forward_factors(&mut forward);
    ntt::backward_factors(&mut backward);
    let k = secret_keys::read_secret_key(key, &forward, &backward)?;
    let c = sealed_records::read_sealed(sealed, version, between)?;
    let dummy = keys::noise_triple(noise);
    let t = octets::read_block(tag);
    Ok(recovery::recover(k, c, dummy, front, body, t, &forward, &backward))
}

// Shows the entry of a body, in a buffer of its length.
fn write_entry(answer: Answer, k0: [u8; BLOCK_LENGTH], body: &[u8], out: &mut [u8])
    requires { length body.now ≡ length out.old }
    ensures { out.new ≡ on_done answer (under_keystream k0 body.now) out.old }
{
    if let Ok(()) = answer {
        derivation::under_keystream(k0, body, out);
    }
}

// What is answered of a key and a record that were read, 9 and 10 too, and the quotients w of step 3. They stand beside a refusal too, since w is
// promised whatever the dummy and the tag; their largest size is shown under 0 only.
#[derive(Clone, Copy)]
pub struct OpenedSealed {
    pub answer: Answer,
    pub quotients: Quotients,
}

// `front`, `body` and `tag` are three parts of a record that its caller cuts (a batch in front and body, a single entry in none): a struct of slices
// would say no more. Shows the entry once the tag is known, in a buffer of the body's length.
pub fn open_sealed(
    key: &[u8],
    sealed: &[u8],
    version: u16,
    between: Answer,
    noise: &[u8],
    front: &[u8],
    body: &[u8],
    tag: &[u8],
    out: &mut [u8],
) -> Result<OpenedSealed, Refusal>
    requires { (third_place ≤ length sealed.now) × (length noise.now ≡ triple_noise_length) × (length front.now % 16 ≡ 0) × (length tag.now ≡ block_length) × (length body.now ≡ length out.old) }
    ensures value { result ≡ and_then (read_answer key.now sealed.now version between) (Ok (opened_with (opened_outcome key.now sealed.now noise.now) (front.now ++ body.now) tag.now (opened_quotients key.now sealed.now noise.now))) }
    ensures out_after { out.new ≡ on_done (sealed_answer key.now sealed.now version between noise.now (front.now ++ body.now) tag.now) (opened_entry (opened_outcome key.now sealed.now noise.now) body.now) out.old }
{
    let r = recover_sealed(key, sealed, version, between, noise, front, body, tag)?;
    let answer = r.answer;
    let quotients = r.quotients;
    write_entry(answer, r.k0, body, out);
    Ok(OpenedSealed { answer, quotients })
}

// ---- open

// A sealed entry opened, with the quotients of the opening.
pub fn open_entry(
    key: &[u8],
    sealed: &[u8],
    noise: &[u8],
    out: &mut [u8],
) -> Result<OpenedSealed, Refusal>
    ensures value { result ≡ and_then (entry_read_answer key.now sealed.now noise.now (length out.old)) (Ok (opened_with (opened_outcome key.now sealed.now noise.now) (body_part sealed.now) (tag_part sealed.now) (opened_quotients key.now sealed.now noise.now))) }
    ensures out_after { out.new ≡ open_out key.now sealed.now noise.now out.old }
{
    let fits = (HEADER_LENGTH <= key.len())
        & (sealed.len() == SEALED_ENTRY_LENGTH)
        & (noise.len() == TRIPLE_NOISE_LENGTH)
        & (out.len() == BLOCK_LENGTH);
    if !fits {
        return Err(Refusal::WrongLength);
    }
    open_sealed(
        key,
        sealed,
        SEALED_ENTRY_VERSION,
        Ok(()),
        noise,
        &sealed[0..0],
        &sealed[THIRD..TAG],
        &sealed[TAG..SEALED_ENTRY_LENGTH],
        out,
    )
}

// entry = body xor keystream where tag = K1 × body + K2, of what the ternary triple of (c1, c2) derives, whatever the dummy. SEALED_ENTRY_LENGTH
// bytes give BLOCK_LENGTH.
pub fn open(key: &[u8], sealed: &[u8], noise: &[u8], out: &mut [u8]) -> Answer
    ensures value { result ≡ open_answer key.now sealed.now noise.now (length out.old) }
    ensures out_after { out.new ≡ open_out key.now sealed.now noise.now out.old }
    ensures open_exact { OpenExact key.now sealed.now noise.now out.old (number result) out.new }
{
    let opened = open_entry(key, sealed, noise, out)?;
    opened.answer
}
