// Key generation from a seed: document 02, No. 2. Buffers may have any length; under any answer but Done every output is as it came.
#![tactic(auto)]

ghost use Rattle.std.specs.Prelude.{◌≡◌, length};
ghost use Rattle.seeds.specs.Seeds.{seed_stream};
ghost use Rattle.answers.specs.Answers.{and_then};
ghost use Rattle.keys.specs.Keys.{generated_answer};
ghost use Rattle.keys.specs.New.{new_key};
ghost use Rattle.calls.specs.Calls.{seeded_keygen_answer, seeded_keygen_public, seeded_keygen_secret};

use answers::{Answer, Refusal};
use keys::NewKey;
use records::{SECRET_KEY_LENGTH, SEED_LENGTH, SEEDED_KEY_LENGTH};
use sampling::NOISE_LENGTH;

// The new key of the seed's stream.
fn generate(seed: &[u8], s: &[u8], e: &[u8]) -> Result<NewKey, Refusal>
    ensures { result ≡ and_then (generated_answer (seed_stream seed.now) s.now e.now) (Ok (new_key (seed_stream seed.now) s.now e.now)) }
{
    let stream = seeds::stream(seed);
    keys::generate(&stream, s, e)
}

// Key generation, which tries once, from a seed and the noise of s and of e.
pub fn keygen_from_seed(
    seed: &[u8],
    s: &[u8],
    e: &[u8],
    public: &mut [u8],
    secret: &mut [u8],
) -> Answer
    ensures value { result ≡ seeded_keygen_answer seed.now s.now e.now (length public.old) (length secret.old) }
    ensures public_after { public.new ≡ seeded_keygen_public seed.now s.now e.now public.old secret.old }
    ensures secret_after { secret.new ≡ seeded_keygen_secret seed.now s.now e.now public.old secret.old }
{
    let fits = (seed.len() == SEED_LENGTH)
        & (s.len() == NOISE_LENGTH)
        & (e.len() == NOISE_LENGTH)
        & (public.len() == SEEDED_KEY_LENGTH)
        & (secret.len() == SECRET_KEY_LENGTH);
    if !fits {
        return Err(Refusal::WrongLength);
    }
    let key = generate(seed, s, e)?;
    seeded_records::write_seeded_key(seed, key.b, public);
    records::write_secret_key(key.a, key.b, key.s, secret);
    Ok(())
}
