// The service call of a desk (document 02, No. 7): it opens a sealed entry and tells how far the link is from its edge. Buffers may have any
// length; under a refusal the output is as it came.
#![tactic(auto)]

ghost use Rattle.std.specs.Prelude.{◌≡◌, length};
ghost use Rattle.margins.specs.Largest.{largest_size};
ghost use Rattle.answers.specs.Answers.{number, and_then, given_or};
ghost use Rattle.calls.specs.Calls.{open_answer, open_out};
ghost use Rattle.margin_calls.specs.Calls.{open_margin};
ghost use Rattle.margin_calls.specs.Promises.{OpenMarginExact};

use answers::{Answer, Refusal};
use ring::Quotients;

// The margin of an opening, where that is done.
fn margin_of(answer: Answer, quotients: Quotients) -> Result<u32, Refusal>
    ensures { result ≡ and_then answer (Ok (largest_size quotients)) }
{
    answer?;
    Ok(margins::largest_size(quotients) as u32)
}

// entry as `open` gives it, and margin = max |w_k| where m = E2 + 5 × w. The margin hangs on the dummy and belongs to the desk's secret side: it
// tells of the secret key and of the triple. SEALED_ENTRY_LENGTH bytes give BLOCK_LENGTH.
pub fn open_with_margin(
    key: &[u8],
    sealed: &[u8],
    noise: &[u8],
    out: &mut [u8],
) -> Result<u32, Refusal>
    ensures value { result ≡ and_then (open_answer key.now sealed.now noise.now (length out.old)) (Ok (open_margin key.now sealed.now noise.now)) }
    ensures out_after { out.new ≡ open_out key.now sealed.now noise.now out.old }
    ensures open_margin_exact { OpenMarginExact key.now sealed.now noise.now out.old 0 (number result) out.new (given_or 0 result) }
{
    let opened = opening::open_entry(key, sealed, noise, out)?;
    margin_of(opened.answer, opened.quotients)
}
