// When a case of key making, or of a key's check, agrees.
#![tactic(auto)]

ghost use Rattle.std.specs.Prelude.{◌≡◌, length};
ghost use Rattle.case_outputs.specs.Outputs.{filled, output};
ghost use Rattle.key_cases.specs.KeyCases.{generation_answer, generation_public, generation_secret, check_agrees, keys_agree, public_after, secret_after, keygen_agrees};

use answers::Answer;
use case_outputs::FILLER;

// ---- check_secret_key

pub fn check_agrees(text: &[u8]) -> bool
    ensures { result ≡ check_agrees text.now }
{
    let answer = key_calls::check_secret_key(vectors::field(text, 0));
    case_outputs::is_told(answer, vectors::number(text, 1), vectors::field(text, 2))
}

// ---- keygen

// What a is read from, the first input: a stream, or the seed of one. Definitions of the answer and of both keys are by it, so a closure
// would be no plainer.
#[derive(Clone, Copy)]
pub enum Source {
    Stream,
    Seed,
}

fn generate(
    source: Source,
    first: &[u8],
    s: &[u8],
    e: &[u8],
    public: &mut [u8],
    secret: &mut [u8],
) -> Answer
    ensures value { result ≡ generation_answer source first.now s.now e.now (length public.old) (length secret.old) }
    ensures public_after { public.new ≡ generation_public source first.now s.now e.now public.old secret.old }
    ensures secret_after { secret.new ≡ generation_secret source first.now s.now e.now public.old secret.old }
{
    match source {
        Source::Stream => key_calls::keygen(first, s, e, public, secret),
        Source::Seed => seeded_keygen::keygen_from_seed(first, s, e, public, secret),
    }
}

// Whether both keys are what a case tells.
fn keys_agree(text: &[u8], answer: Answer, public: &[u8], secret: &[u8]) -> bool
    ensures { result ≡ keys_agree text.now answer public.now secret.now }
{
    let told = vectors::number(text, 5);
    let words = vectors::field(text, 6);
    case_outputs::answer_agrees(answer, told, words, vectors::field(text, 7), public)
        & case_outputs::answer_agrees(answer, told, words, vectors::field(text, 8), secret)
}

fn keygen_agrees(source: Source, text: &[u8], public: &mut [u8], secret: &mut [u8]) -> bool
    ensures value { result ≡ keygen_agrees source text.now (filled public.old) (filled secret.old) }
    ensures public_after { public.new ≡ public_after source text.now (filled public.old) (filled secret.old) }
    ensures secret_after { secret.new ≡ secret_after source text.now (filled public.old) (filled secret.old) }
{
    vectors::fill(public, FILLER);
    vectors::fill(secret, FILLER);
    let answer = generate(
        source,
        vectors::field(text, 0),
        vectors::field(text, 1),
        vectors::field(text, 2),
        public,
        secret,
    );
    keys_agree(text, answer, public, secret)
}

pub fn keygen_case_agrees(source: Source, text: &[u8]) -> bool
    ensures { result ≡ keygen_agrees source text.now (output 3 text.now) (output 4 text.now) }
{
    let mut public = case_outputs::output_buffer();
    let mut secret = case_outputs::output_buffer();
    let public_size = case_outputs::room(text, 3);
    let secret_size = case_outputs::room(text, 4);
    keygen_agrees(
        source,
        text,
        &mut public[0..public_size],
        &mut secret[0..secret_size],
    )
}
