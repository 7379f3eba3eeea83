// What the program that makes a key prints, from what it read.
#![tactic(auto)]

ghost use Rattle.std.specs.Prelude.{◌≡◌, [], ◌++◌, ◌+◌, ◌≤◌, length, take};
ghost use Rattle.text.specs.Text.{written};
ghost use Rattle.answers.specs.Answers.{on_done};
ghost use Rattle.records.specs.Layout.{public_key_length, secret_key_length};
ghost use Rattle.make_key_output.specs.MakeKey.{input_length, seeded_input_length, make_key_answer, public_key, secret_key, standard_output, standard_error};

use answers::{Answer, Refusal};
use records::{PUBLIC_KEY_LENGTH, SECRET_KEY_LENGTH, SEED_LENGTH, SEEDED_KEY_LENGTH};
use refusal_line::LINE_LENGTH;
use sampling::{NOISE_LENGTH, STREAM_LENGTH};
use text::Text;

// Where the noise of s and of e starts, behind the stream, and where it ends.
const S_NOISE: usize = STREAM_LENGTH;

const E_NOISE: usize = S_NOISE + NOISE_LENGTH;

pub const INPUT_LENGTH: usize = E_NOISE + NOISE_LENGTH;

// .. behind the seed.
const SEEDED_S_NOISE: usize = SEED_LENGTH;

const SEEDED_E_NOISE: usize = SEEDED_S_NOISE + NOISE_LENGTH;

const SEEDED_INPUT_LENGTH: usize = SEEDED_E_NOISE + NOISE_LENGTH;

// The keys of a stream.
fn long_keys(input: &[u8], public: &mut [u8], secret: &mut [u8]) -> Answer
    requires input_len { length input.now ≡ input_length }
    requires public_len { (length public.old ≡ public_key_length) × (length secret.old ≡ secret_key_length) }
    ensures value { result ≡ make_key_answer input.now }
    ensures public_after { public.new ≡ on_done result (written (public_key input.now) public.old) public.old }
    ensures secret_after { secret.new ≡ on_done result (secret_key input.now) secret.old }
{
    key_calls::keygen(
        &input[0..S_NOISE],
        &input[S_NOISE..E_NOISE],
        &input[E_NOISE..INPUT_LENGTH],
        public,
        secret,
    )
}

// The keys of a seed.
fn seeded_keys(input: &[u8], public: &mut [u8], secret: &mut [u8]) -> Answer
    requires input_len { length input.now ≡ seeded_input_length }
    requires public_len { (length public.old ≡ public_key_length) × (length secret.old ≡ secret_key_length) }
    ensures value { result ≡ make_key_answer input.now }
    ensures public_after { public.new ≡ on_done result (written (public_key input.now) public.old) public.old }
    ensures secret_after { secret.new ≡ on_done result (secret_key input.now) secret.old }
{
    seeded_keygen::keygen_from_seed(
        &input[0..SEEDED_S_NOISE],
        &input[SEEDED_S_NOISE..SEEDED_E_NOISE],
        &input[SEEDED_E_NOISE..SEEDED_INPUT_LENGTH],
        &mut public[0..SEEDED_KEY_LENGTH],
        secret,
    )
}

// The keys of an input of any length.
fn keys_of(input: &[u8], public: &mut [u8], secret: &mut [u8]) -> Answer
    requires { (length public.old ≡ public_key_length) × (length secret.old ≡ secret_key_length) }
    ensures value { result ≡ make_key_answer input.now }
    ensures public_after { public.new ≡ on_done result (written (public_key input.now) public.old) public.old }
    ensures secret_after { secret.new ≡ on_done result (secret_key input.now) secret.old }
{
    if input.len() == SEEDED_INPUT_LENGTH {
        return seeded_keys(input, public, secret);
    }
    if input.len() != INPUT_LENGTH {
        return Err(Refusal::WrongLength);
    }
    long_keys(input, public, secret)
}

// How long the public key is.
fn public_length(input: &[u8]) -> usize
    ensures { result ≡ length (public_key input.now) }
{
    if input.len() == SEEDED_INPUT_LENGTH {
        return SEEDED_KEY_LENGTH;
    }
    PUBLIC_KEY_LENGTH
}

// What is printed: so many bytes of each key to standard output, and a text to standard error.
// Lengths, and no slices of the lent buffers: the contract says what the whole buffers hold, too.
#[derive(Clone, Copy)]
pub struct Printed {
    pub public: usize,
    pub secret: usize,
    pub error: Text<LINE_LENGTH>,
}

// What the program does with its input.
pub fn make_key(input: &[u8], public: &mut [u8], secret: &mut [u8]) -> Printed
    requires { (length public.old ≡ public_key_length) × (length secret.old ≡ secret_key_length) }
    ensures public_after { public.new ≡ on_done (make_key_answer input.now) (written (public_key input.now) public.old) public.old }
    ensures secret_after { secret.new ≡ on_done (make_key_answer input.now) (secret_key input.now) secret.old }
    ensures public_value { (result.public ≡ length (on_done (make_key_answer input.now) (public_key input.now) [])) × (result.public ≤ public_key_length) }
    ensures secret_value { (result.secret ≡ length (on_done (make_key_answer input.now) (secret_key input.now) [])) × (result.secret ≤ secret_key_length) }
    ensures secret_after_2 { take result.public public.new ++ take result.secret secret.new ≡ standard_output input.now }
    ensures error_value { result.error ≡ standard_error input.now }
{
    let answer = keys_of(input, public, secret);
    let error = refusal_line::line(answer);
    if let Ok(()) = answer {
        return Printed {
            public: public_length(input),
            secret: SECRET_KEY_LENGTH,
            error,
        };
    }
    Printed {
        public: 0,
        secret: 0,
        error,
    }
}
