// Answers and outputs of the cases of a public call: the buffers before the call, and when answer and outputs are what a case tells.
#![tactic(auto)]

ghost use Rattle.std.specs.Prelude.{◌≡◌, ◌≤◌};
ghost use Rattle.lists.specs.Table.{zeros};
ghost use Rattle.vectors.specs.Answers.{is_same};
ghost use Rattle.location_text.specs.Words.{location_text};
ghost use Rattle.case_outputs.specs.Outputs.{room, output_agrees, answer_told, answer_agrees};

use answers::{Answer, Location};

// What fills an output before the call.
pub const FILLER: u8 = 165;

// As much as the output of a case may have. The files of cases themselves have a buffer of another size (`vectors::file_buffer`). Each kind of case
// takes its buffer and its room in three lines; a closure would be no plainer.
pub fn output_buffer() -> [u8; 65536]
    ensures { result ≡ zeros 65536 }
{
    [0; 65536]
}

// How many bytes an output has, whose length stands in field i.
#[tactic(auto, unfolding(crate::specs::Outputs::room))]
pub fn room(text: &[u8], i: usize) -> usize
    ensures { (result ≡ room i text.now) × (result ≤ 65536) }
{
    (vectors::number(text, i) as usize).min(65536)
}

fn output_agrees(told: u32, bytes: &[u8], after: &[u8]) -> bool
    ensures { result ≡ output_agrees told bytes.now after.now }
{
    if told == 0 {
        return vectors::same(after, bytes);
    }
    (bytes.len() == 0) & vectors::is_filled(after, FILLER)
}

// Whether a location in words is this one.
pub fn is_located(l: Location, words: &[u8]) -> bool
    ensures { result ≡ is_same (location_text l) words.now }
{
    vectors::same(location_text::words(l).as_bytes(), words)
}

// Whether an answer is the one that a case tells by its number and its location in words.
pub fn is_told(answer: Answer, told: u32, words: &[u8]) -> bool
    ensures { result ≡ answer_told answer told words.now }
{
    (answers::number(answer) == told) & is_located(answers::locate(answer), words)
}

// Whether answer and output are what a case tells.
pub fn answer_agrees(answer: Answer, told: u32, words: &[u8], bytes: &[u8], after: &[u8]) -> bool
    ensures { result ≡ answer_agrees answer told words.now bytes.now after.now }
{
    is_told(answer, told, words) & output_agrees(told, bytes, after)
}
