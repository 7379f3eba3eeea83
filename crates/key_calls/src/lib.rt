// The calls that check a secret key and that make keys from a stream. Buffers may have any length; under any answer but Done every
// output is as it came.
#![tactic(auto)]

ghost use Rattle.std.specs.Prelude.{◌≡◌, length};
ghost use Rattle.answers.specs.Answers.{number};
ghost use Rattle.calls.specs.Calls.{check_answer, keygen_answer, keygen_public, keygen_secret};
ghost use Rattle.calls.specs.Promises.{CheckExact};

use answers::{Answer, Refusal};
use encoding::HEADER_LENGTH;
use ntt::FACTORS;
use records::{PUBLIC_KEY_LENGTH, SECRET_KEY_LENGTH};
use sampling::{NOISE_LENGTH, STREAM_LENGTH};

// ---- check_secret_key

// The key check, of a secret key of either version.
pub fn check_secret_key(key: &[u8]) -> Answer
    ensures value { result ≡ check_answer key.now }
    ensures check_exact { CheckExact key.now (number result) }
{
    if key.len() < HEADER_LENGTH {
        return Err(Refusal::WrongLength);
    }
    let mut forward = [0u16; FACTORS];
    let mut backward = [0u16; FACTORS];
    ntt::forward_factors(&mut forward);
    ntt::backward_factors(&mut backward);
    secret_keys::check_secret_key(key, &forward, &backward)
}

// ---- keygen

// Key generation, which tries once, from a stream and the noise of s and of e.
pub fn keygen(stream: &[u8], s: &[u8], e: &[u8], public: &mut [u8], secret: &mut [u8]) -> Answer
    ensures value { result ≡ keygen_answer stream.now s.now e.now (length public.old) (length secret.old) }
    ensures public_after { public.new ≡ keygen_public stream.now s.now e.now public.old secret.old }
    ensures secret_after { secret.new ≡ keygen_secret stream.now s.now e.now public.old secret.old }
{
    let fits = (stream.len() == STREAM_LENGTH)
        & (s.len() == NOISE_LENGTH)
        & (e.len() == NOISE_LENGTH)
        & (public.len() == PUBLIC_KEY_LENGTH)
        & (secret.len() == SECRET_KEY_LENGTH);
    if !fits {
        return Err(Refusal::WrongLength);
    }
    let key = keys::generate(stream, s, e)?;
    records::write_public_key(key.a, key.b, public);
    records::write_secret_key(key.a, key.b, key.s, secret);
    Ok(())
}
