// New keys, from a stream, and triples, from noise.
#![tactic(auto)]

ghost use Rattle.std.specs.Prelude.{◌≡◌, length};
ghost use Rattle.scheme.specs.Answers as Struct;
ghost use Rattle.answers.specs.Answers.{and_then};
ghost use Rattle.keys.specs.Keys.{generated_answer, triple_noise_length, noise_triple};
ghost use Rattle.keys.specs.New.{new_key};

use answers::Refusal;
use ntt::{DEGREE, Element, FACTORS};
use sampling::NOISE_LENGTH;
use scheme::Triple;

// ---- new keys

#[derive(Clone, Copy)]
pub struct NewKey {
    pub a: Element,
    pub b: Element,
    pub s: Element,
}

// From a stream and the noise of s and of e. It tries once.
pub fn generate(stream: &[u8], s: &[u8], e: &[u8]) -> Result<NewKey, Refusal>
    ensures { result ≡ and_then (generated_answer stream.now s.now e.now) (Ok (new_key stream.now s.now e.now)) }
{
    let u = sampling::uniform(stream);
    answers::unless(u.count == DEGREE, Refusal::StreamExhausted)?;
    let a = u.value;
    let secret = sampling::ternary(s);
    let noise = sampling::ternary(e);
    let mut forward = [0u16; FACTORS];
    let mut backward = [0u16; FACTORS];
    ntt::forward_factors(&mut forward);
    ntt::backward_factors(&mut backward);
    let made = scheme::generate(a, secret, noise, &forward, &backward);
    let b = made.ok_or(Refusal::NotInvertible)?;
    Ok(NewKey { a, b, s: secret })
}

// ---- triples

// Where the noise of e1 and of e2 starts, behind that of r, and where it ends.
const E1: usize = NOISE_LENGTH;

const E2: usize = 2 * NOISE_LENGTH;

pub const TRIPLE_NOISE_LENGTH: usize = 3 * NOISE_LENGTH;

// Of noise.
pub fn noise_triple(noise: &[u8]) -> Triple
    requires { length noise.now ≡ triple_noise_length }
    ensures { Struct.triple_of result ≡ noise_triple noise.now }
{
    let r = sampling::ternary(&noise[0..E1]);
    let e1 = sampling::ternary(&noise[E1..E2]);
    let e2 = sampling::ternary(&noise[E2..TRIPLE_NOISE_LENGTH]);
    Triple { r, e1, e2 }
}
