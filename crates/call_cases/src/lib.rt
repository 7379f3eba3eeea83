// When a case of a call with one output agrees.
#![tactic(auto)]

ghost use Rattle.std.specs.Prelude.{◌≡◌, ◌≤◌, length};
ghost use Rattle.case_outputs.specs.Outputs.{filled, output};
ghost use Rattle.call_cases.specs.CallCases.{call_answer, call_out, size_field, out_after, call_agrees};

use answers::Answer;
use case_outputs::FILLER;

// A call with one output. The table of files in the program names it, and definitions of its answer, its output and its fields are by it:
// a closure for each would be no plainer.
#[derive(Clone, Copy)]
pub enum Call {
    Encapsulate,
    Decapsulate,
    Seal,
    Open,
    SealBatch,
    ExpandSecretKey,
    CompactSecretKey,
    Shake128,
    Shake256,
}

fn run(call: Call, x: &[u8], y: &[u8], z: &[u8], out: &mut [u8]) -> Answer
    ensures value { result ≡ call_answer call x.now y.now z.now (length out.old) }
    ensures out_after { out.new ≡ call_out call x.now y.now z.now out.old }
{
    match call {
        Call::Encapsulate => sealing::encapsulate(x, y, out),
        Call::Decapsulate => opening::decapsulate(x, y, z, out),
        Call::Seal => sealing::seal(x, y, z, out),
        Call::Open => opening::open(x, y, z, out),
        Call::SealBatch => batch_sealing::seal_batch(x, y, z, out),
        Call::ExpandSecretKey => key_conversion::expand_secret_key(x, out),
        Call::CompactSecretKey => key_conversion::compact_secret_key(x, out),
        Call::Shake128 => {
            shake::shake128(x, out);
            Ok(())
        }
        Call::Shake256 => {
            shake::shake256(x, out);
            Ok(())
        }
    }
}

pub fn size_field(call: Call) -> usize
    ensures { (result ≡ size_field call) × (result ≤ 3) }
{
    match call {
        Call::Encapsulate => 2,
        Call::Decapsulate => 3,
        Call::Seal => 3,
        Call::Open => 3,
        Call::SealBatch => 3,
        Call::ExpandSecretKey => 1,
        Call::CompactSecretKey => 1,
        Call::Shake128 => 1,
        Call::Shake256 => 1,
    }
}

fn call_agrees(call: Call, text: &[u8], out: &mut [u8]) -> bool
    ensures value { result ≡ call_agrees call text.now (filled out.old) }
    ensures out_after { out.new ≡ out_after call text.now (filled out.old) }
{
    vectors::fill(out, FILLER);
    let answer = run(
        call,
        vectors::field(text, 0),
        vectors::field(text, 1),
        vectors::field(text, 2),
        out,
    );
    let at = size_field(call);
    let told = vectors::number(text, at + 1);
    let words = vectors::field(text, at + 2);
    case_outputs::answer_agrees(answer, told, words, vectors::field(text, at + 3), out)
}

pub fn call_case_agrees(call: Call, text: &[u8]) -> bool
    ensures { result ≡ call_agrees call text.now (output (size_field call) text.now) }
{
    let mut out = case_outputs::output_buffer();
    let size = case_outputs::room(text, size_field(call));
    call_agrees(call, text, &mut out[0..size])
}
