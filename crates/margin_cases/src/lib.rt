// When a case of opening with margin agrees.
#![tactic(auto)]

ghost use Rattle.std.specs.Prelude.{◌≡◌};
ghost use Rattle.case_outputs.specs.Outputs.{filled, output};
ghost use Rattle.margin_cases.specs.MarginCases.{margin_agrees, opened_agrees, open_margin_after, open_margin_agrees};

use answers::Refusal;
use case_outputs::FILLER;

// Whether the margin is the one that is told, as under 0, or none is told and there is none, as under any other number.
fn margin_agrees(text: &[u8], margin: u32) -> bool
    ensures { result ≡ margin_agrees text.now margin }
{
    if vectors::number(text, 4) == 0 {
        return margin == vectors::number(text, 6);
    }
    (vectors::field(text, 6).len() == 0) & (margin == 0)
}

// A margin that was not given is 0, as in the definition. It shares no comparison with that of `batch_cases`, so they stay two.
fn opened_agrees(text: &[u8], opened: Result<u32, Refusal>, after: &[u8]) -> bool
    ensures { result ≡ opened_agrees text.now opened after.now }
{
    let told = vectors::number(text, 4);
    let words = vectors::field(text, 5);
    let entry = vectors::field(text, 7);
    match opened {
        Ok(margin) => {
            case_outputs::answer_agrees(Ok(()), told, words, entry, after)
                & margin_agrees(text, margin)
        }
        Err(refusal) => {
            case_outputs::answer_agrees(Err(refusal), told, words, entry, after)
                & margin_agrees(text, 0)
        }
    }
}

fn open_margin_agrees(text: &[u8], out: &mut [u8]) -> bool
    ensures value { result ≡ open_margin_agrees text.now (filled out.old) }
    ensures out_after { out.new ≡ open_margin_after text.now (filled out.old) }
{
    vectors::fill(out, FILLER);
    let opened = margin_opening::open_with_margin(
        vectors::field(text, 0),
        vectors::field(text, 1),
        vectors::field(text, 2),
        out,
    );
    opened_agrees(text, opened, out)
}

pub fn open_margin_case_agrees(text: &[u8]) -> bool
    ensures { result ≡ open_margin_agrees text.now (output 3 text.now) }
{
    let mut out = case_outputs::output_buffer();
    let size = case_outputs::room(text, 3);
    open_margin_agrees(text, &mut out[0..size])
}
