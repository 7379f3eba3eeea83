// Seeded public keys as bytes: document 02, No. 2.
// The calls test every length first, so the functions here are lent buffers of the record's length.
#![tactic(auto)]

ghost use Rattle.std.specs.Prelude.{◌≡◌, length};
ghost use Rattle.answers.specs.Answers.{and_then};
ghost use Rattle.records.specs.Layout.{seed_length, seeded_key_length};
ghost use Rattle.records.specs.Records.{seeded_record_answer, seeded_b, seeded_key_bytes};

use answers::{KeyPart, KeyRecord, Refusal};
use ntt::Element;
use records::{SEED, SEEDED_B, SEEDED_KEY_LENGTH, SEEDED_KEY_MARK};

// Its b. Mark and version are checked, then words, of which the first that is q or more is named. The seed stays where it is lent.
pub fn read_seeded_key(bytes: &[u8]) -> Result<Element, Refusal>
    requires { length bytes.now ≡ seeded_key_length }
    ensures { result ≡ and_then (seeded_record_answer bytes.now) (Ok (seeded_b bytes.now)) }
{
    records::check_header(bytes, SEEDED_KEY_MARK, 1)?;
    let b = encoding::decode_element(&bytes[SEEDED_B..SEEDED_KEY_LENGTH]);
    let at = encoding::first_unreduced(b);
    let word = KeyRecord::SeededPublicKey(KeyPart::B(at));
    records::place_answer(at, Refusal::KeyOutOfRange(word))?;
    Ok(b)
}

pub fn write_seeded_key(seed: &[u8], b: Element, out: &mut [u8])
    requires { (length seed.now ≡ seed_length) × (length out.old ≡ seeded_key_length) }
    ensures { out.new ≡ seeded_key_bytes seed.now b }
{
    encoding::encode_header(SEEDED_KEY_MARK, 1, &mut out[0..SEED]);
    octets::copy(seed, &mut out[SEED..SEEDED_B]);
    encoding::encode_element(b, &mut out[SEEDED_B..SEEDED_KEY_LENGTH]);
}
