// What the program that seals an entry prints, from what it read.
#![tactic(auto)]

ghost use Rattle.std.specs.Prelude.{◌≡◌, ◌≤◌, length, take};
ghost use Rattle.answers.specs.Answers.{on_done};
ghost use Rattle.records.specs.Layout.{sealed_entry_length};
ghost use Rattle.calls.specs.Calls.{seal_answer, seal_out};
ghost use Rattle.seal_entry_output.specs.SealEntry.{behind_key_length, is_input_length, key_part, noise_part, entry_part, seal_entry_answer, sealed_entry, standard_output, standard_error};

use answers::{Answer, Refusal};
use keys::TRIPLE_NOISE_LENGTH;
use octets::BLOCK_LENGTH;
use records::{PUBLIC_KEY_LENGTH, SEALED_ENTRY_LENGTH, SEEDED_KEY_LENGTH};
use refusal_line::LINE_LENGTH;
use text::Text;

// The noise and the entry, which stand behind the public key.
const BEHIND_KEY: usize = TRIPLE_NOISE_LENGTH + BLOCK_LENGTH;

// With a public key of either kind; the first is the longer.
pub const INPUT_LENGTH: usize = PUBLIC_KEY_LENGTH + BEHIND_KEY;

const SEEDED_INPUT_LENGTH: usize = SEEDED_KEY_LENGTH + BEHIND_KEY;

fn is_input_length(size: usize) -> bool
    ensures { result ≡ is_input_length size }
{
    (size == INPUT_LENGTH) | (size == SEEDED_INPUT_LENGTH)
}

// Seals by the parts of an input.
fn seal_parts(input: &[u8], sealed: &mut [u8]) -> Answer
    requires { behind_key_length ≤ length input.now }
    ensures value { result ≡ seal_answer (key_part input.now) (noise_part input.now) (entry_part input.now) (length sealed.old) }
    ensures sealed_after { sealed.new ≡ seal_out (key_part input.now) (noise_part input.now) (entry_part input.now) sealed.old }
{
    let noise = input.len() - BEHIND_KEY;
    let entry = noise + TRIPLE_NOISE_LENGTH;
    sealing::seal(
        &input[0..noise],
        &input[noise..entry],
        &input[entry..entry + BLOCK_LENGTH],
        sealed,
    )
}

// The sealed entry of an input of any length.
fn sealed_of(input: &[u8], sealed: &mut [u8]) -> Answer
    requires { length sealed.old ≡ sealed_entry_length }
    ensures value { result ≡ seal_entry_answer input.now }
    ensures sealed_after { sealed.new ≡ on_done result (sealed_entry input.now) sealed.old }
{
    if !is_input_length(input.len()) {
        return Err(Refusal::WrongLength);
    }
    seal_parts(input, sealed)
}

// What is printed: so many bytes of the sealed entry to standard output, and a text to standard error.
// Lengths, and no slices of the lent buffers: the contract says what the whole buffers hold, too.
#[derive(Clone, Copy)]
pub struct Printed {
    pub sealed: usize,
    pub error: Text<LINE_LENGTH>,
}

// What the program does with its input.
pub fn seal_entry(input: &[u8], sealed: &mut [u8]) -> Printed
    requires { length sealed.old ≡ sealed_entry_length }
    ensures sealed_after { sealed.new ≡ on_done (seal_entry_answer input.now) (sealed_entry input.now) sealed.old }
    ensures sealed_value { (result.sealed ≡ length (standard_output input.now)) × (result.sealed ≤ sealed_entry_length) }
    ensures sealed_after_2 { take result.sealed sealed.new ≡ standard_output input.now }
    ensures error_value { result.error ≡ standard_error input.now }
{
    let answer = sealed_of(input, sealed);
    let error = refusal_line::line(answer);
    if let Ok(()) = answer {
        return Printed {
            sealed: SEALED_ENTRY_LENGTH,
            error,
        };
    }
    Printed { sealed: 0, error }
}
