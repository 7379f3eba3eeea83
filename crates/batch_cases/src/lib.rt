// When a case of opening a batch agrees.
#![tactic(auto)]

ghost use Rattle.std.specs.Prelude.{◌≡◌};
ghost use Rattle.case_outputs.specs.Outputs.{filled, output};
ghost use Rattle.batch_cases.specs.BatchCases.{is_shown, is_kept, entries_agree, opened_agrees, open_batch_after, open_batch_agrees};

use answers::Refusal;
use case_outputs::FILLER;
use octets::BLOCK_LENGTH;

// Whether count and entries are the ones that are told, as under 0. A count may be of more entries than the output holds.
fn is_shown(text: &[u8], count: u32, after: &[u8]) -> bool
    ensures { result ≡ is_shown text.now count after.now }
{
    let told = vectors::number(text, 6);
    let end = octets::lesser(BLOCK_LENGTH * count as usize, after.len());
    (count == told)
        & vectors::same(&after[0..end], vectors::field(text, 7))
        & vectors::is_filled(&after[end..], FILLER)
}

// Whether nothing was told, counted or written, as under any other number.
fn is_kept(text: &[u8], count: u32, after: &[u8]) -> bool
    ensures { result ≡ is_kept text.now count after.now }
{
    (vectors::field(text, 6).len() == 0)
        & (vectors::field(text, 7).len() == 0)
        & (count == 0)
        & vectors::is_filled(after, FILLER)
}

fn entries_agree(text: &[u8], count: u32, after: &[u8]) -> bool
    ensures { result ≡ entries_agree text.now count after.now }
{
    if vectors::number(text, 4) == 0 {
        return is_shown(text, count, after);
    }
    is_kept(text, count, after)
}

// Entries of a batch that was refused are none: the number 0, as in the definition.
fn opened_agrees(text: &[u8], opened: Result<u32, Refusal>, after: &[u8]) -> bool
    ensures { result ≡ opened_agrees text.now opened after.now }
{
    let told = vectors::number(text, 4);
    let words = vectors::field(text, 5);
    match opened {
        Ok(count) => case_outputs::is_told(Ok(()), told, words) & entries_agree(text, count, after),
        Err(refusal) => {
            case_outputs::is_told(Err(refusal), told, words) & entries_agree(text, 0, after)
        }
    }
}

fn open_batch_agrees(text: &[u8], out: &mut [u8]) -> bool
    ensures value { result ≡ open_batch_agrees text.now (filled out.old) }
    ensures out_after { out.new ≡ open_batch_after text.now (filled out.old) }
{
    vectors::fill(out, FILLER);
    let opened = batch_opening::open_batch(
        vectors::field(text, 0),
        vectors::field(text, 1),
        vectors::field(text, 2),
        out,
    );
    opened_agrees(text, opened, out)
}

pub fn open_batch_case_agrees(text: &[u8]) -> bool
    ensures { result ≡ open_batch_agrees text.now (output 3 text.now) }
{
    let mut out = case_outputs::output_buffer();
    let size = case_outputs::room(text, 3);
    open_batch_agrees(text, &mut out[0..size])
}
