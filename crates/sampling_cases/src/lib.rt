// On how many cases of key making the samples agree with the keys.
// A case has nine fields: the stream, the noise of s and of e, the lengths of both keys, the number, an empty field, and both keys.
#![tactic(auto)]

ghost use Rattle.std.specs.Prelude.{◌≡◌, length};
ghost use Rattle.sampling.specs.Stream.{taken};
ghost use Rattle.records.specs.Layout.{public_key_length, secret_key_length};
ghost use Rattle.sampling_cases.specs.Cases.{element_agrees, noise_agrees, keys_agree, case_agrees, is_fitting, verdict, added, counts};

use encoding::{ELEMENT_LENGTH, TERNARY_LENGTH};
use ntt::DEGREE;
use records::{FIRST, PUBLIC_KEY_LENGTH, SECOND, SECRET_KEY_LENGTH, THIRD};
use sampling::{NOISE_LENGTH, STREAM_LENGTH};
use vectors::Verdict;

// ---- a case

fn element_agrees(stream: &[u8], public: &[u8]) -> bool
    requires { length public.now ≡ public_key_length }
    ensures { result ≡ element_agrees stream.now public.now }
{
    let mut bytes = [0u8; ELEMENT_LENGTH];
    encoding::encode_element(sampling::uniform(stream).value, &mut bytes);
    vectors::same(&bytes, &public[FIRST..SECOND])
}

fn noise_agrees(noise: &[u8], secret: &[u8]) -> bool
    requires { length secret.now ≡ secret_key_length }
    ensures { result ≡ noise_agrees noise.now secret.now }
{
    let mut bytes = [0u8; TERNARY_LENGTH];
    encoding::encode_ternary(sampling::ternary(noise), &mut bytes);
    vectors::same(&bytes, &secret[THIRD..SECRET_KEY_LENGTH])
}

// Whether both keys are there whole, and the samples are theirs.
fn keys_agree(stream: &[u8], noise: &[u8], public: &[u8], secret: &[u8]) -> bool
    ensures { result ≡ keys_agree stream.now noise.now public.now secret.now }
{
    public.len() == PUBLIC_KEY_LENGTH
        && secret.len() == SECRET_KEY_LENGTH
        && element_agrees(stream, public)
        && noise_agrees(noise, secret)
}

// How many words of a stream are taken.
pub fn count(stream: &[u8]) -> usize
    ensures { result ≡ length (taken stream.now) }
{
    sampling::uniform(stream).count
}

fn agrees(number: u32, stream: &[u8], noise: &[u8], public: &[u8], secret: &[u8]) -> bool
    ensures { result ≡ case_agrees number stream.now noise.now public.now secret.now }
{
    match number {
        0 => keys_agree(stream, noise, public, secret),
        6 => count(stream) == DEGREE,
        8 => count(stream) < DEGREE,
        _ => false,
    }
}

// Whether every buffer of the first case has the right length.
fn fitting(text: &[u8]) -> bool
    ensures { result ≡ is_fitting text.now }
{
    (vectors::field(text, 0).len() == STREAM_LENGTH)
        & (vectors::field(text, 1).len() == NOISE_LENGTH)
        & (vectors::field(text, 2).len() == NOISE_LENGTH)
        & (vectors::number(text, 3) as usize == PUBLIC_KEY_LENGTH)
        & (vectors::number(text, 4) as usize == SECRET_KEY_LENGTH)
}

// Judges the first case of the text. A case with other lengths counts as malformed: key making refuses it, which is no matter of sampling.
fn judge(text: &[u8]) -> Verdict
    ensures { result ≡ verdict text.now }
{
    let stream = vectors::field(text, 0);
    let noise = vectors::field(text, 1);
    let public = vectors::field(text, 7);
    let secret = vectors::field(text, 8);
    vectors::judged(
        fitting(text),
        agrees(vectors::number(text, 5), stream, noise, public, secret),
    )
}

#[derive(Clone, Copy)]
pub struct Counts {
    pub agreed: u64,
    pub differed: u64,
    pub skipped: u64,
}

// The counts with one verdict more.
fn added(c: Counts, verdict: Verdict) -> Counts
    ensures { result ≡ added c verdict }
{
    match verdict {
        Verdict::Agreed => Counts {
            agreed: vectors::one_more(c.agreed),
            ..c
        },
        Verdict::Differed => Counts {
            differed: vectors::one_more(c.differed),
            ..c
        },
        Verdict::Malformed => Counts {
            skipped: vectors::one_more(c.skipped),
            ..c
        },
    }
}

pub fn judge_cases(text: &[u8]) -> Counts
    ensures { result ≡ counts text.now }
{
    let none = Counts {
        agreed: 0,
        differed: 0,
        skipped: 0,
    };
    vectors::tally(text, 9, none, |c, verdict, _| added(c, verdict), judge)
}
