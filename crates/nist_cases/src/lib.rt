// The cases of NIST's byte-oriented response files: the verdict on the case that a text starts with.
#![tactic(auto)]

ghost use Rattle.std.specs.Prelude.{◌≡◌, ◌≤◌, length};
ghost use Rattle.response_files.specs.Lines.{same};
ghost use Rattle.monte_chain.specs.Monte.{output_of};
ghost use Rattle.nist_cases.specs.Cases.{most, agrees, judged, is_message, message_in, judged_message};
ghost use Rattle.nist_cases.specs.Cases.{differing, judged_turn, judged_output, judged_counted, judged_length, judged_case};

use monte_chain::{Chain, Function};

// ---- one message

// Three answers on a par: as a result of a boolean they would be no plainer.
#[derive(Clone, Copy)]
pub enum Verdict {
    Agreed,
    Differed,
    // How many bytes of the file are left from the start of the bad line.
    Malformed(usize),
}

// Whether the message gives what is expected. The output is put into a buffer, which says how long it is.
fn agrees_in(function: Function, message: &[u8], expected: &[u8], output: &mut [u8]) -> bool
    ensures value { result ≡ same (output_of function message.now (length output.old)) expected.now }
    ensures output_after { output.new ≡ output_of function message.now (length output.old) }
{
    monte_chain::put_output(function, message, output);
    &*output == expected
}

fn agrees(function: Function, message: &[u8], expected: &[u8]) -> bool
    requires { length expected.now ≤ most }
    ensures { result ≡ agrees function message.now expected.now }
{
    let n = expected.len();
    let mut output = io::large_buffer();
    agrees_in(function, message, expected, &mut output[..n])
}

// Judges the message by the line `Output = `, which has size bytes, 1 to 65,536.
fn judge(function: Function, text: &[u8], message: &[u8], size: usize) -> Verdict
    ensures { result ≡ judged function message.now size text.now }
{
    let digits = response_files::value(text, b"Output = ");
    let mut expected = io::large_buffer();
    if !response_files::read_hex(digits, size, &mut expected) {
        return Verdict::Malformed(text.len());
    }
    if agrees(function, message, &expected[..size]) {
        Verdict::Agreed
    } else {
        Verdict::Differed
    }
}

// Whether the digits tell a message of so many bytes, for which out has room; they are then put into out. The empty message is written 00.
fn read_message(digits: &[u8], bytes: usize, out: &mut [u8]) -> bool
    ensures value { result ≡ is_message (length out.old) bytes digits.now }
    ensures out_after { out.new ≡ message_in bytes digits.now out.old }
{
    if bytes == 0 {
        return digits == b"00".as_slice();
    }
    response_files::read_hex(digits, bytes, out)
}

// Judges the message on the line `Msg = `, which has so many bytes, by the line after it.
fn judge_message(function: Function, text: &[u8], bytes: usize, size: usize) -> Verdict
    ensures { result ≡ judged_message function bytes size text.now }
{
    let digits = response_files::value(text, b"Msg = ");
    let mut message = io::large_buffer();
    if !read_message(digits, bytes, &mut message) {
        return Verdict::Malformed(text.len());
    }
    judge(
        function,
        response_files::after_line(text),
        &message[..bytes],
        size,
    )
}

// ---- cases

// What a file is of. The program names it for each file, and definitions are by it: closures would be no plainer. Function, kind and
// number go together through two crates as document and section do: each step takes what it reads.
#[derive(Clone, Copy)]
pub enum Kind {
    Length,
    Output,
    Monte,
}

// An output of the wrong length does not agree.
fn differing(verdict: Verdict) -> Verdict
    ensures { result ≡ differing verdict }
{
    match verdict {
        Verdict::Agreed => Verdict::Differed,
        Verdict::Differed => Verdict::Differed,
        Verdict::Malformed(left) => Verdict::Malformed(left),
    }
}

// Judges the chain's last turn by the line `Output = `.
fn judge_turn(function: Function, text: &[u8], c: Chain, size: usize) -> Verdict
    ensures { result ≡ judged_turn function c size text.now }
{
    let message = c.message;
    let verdict = judge(function, text, &message, size);
    if size == monte_chain::output_size(function, c.extra) {
        return verdict;
    }
    differing(verdict)
}

// The lines after `Outputlen = `, which gives the size of the output.
fn judge_output(
    function: Function,
    kind: Kind,
    text: &[u8],
    number: usize,
    c: Chain,
    size: usize,
) -> Verdict
    ensures { result ≡ judged_output function kind number c size text.now }
{
    match kind {
        Kind::Length => judge_message(function, text, number, size),
        Kind::Output => judge_message(function, text, number, size),
        Kind::Monte => judge_turn(function, text, c, size),
    }
}

// A case of the files of variable outputs and of the Monte files: COUNT, Outputlen, what they have of Msg, and Output.
fn judge_counted_case(
    function: Function,
    kind: Kind,
    text: &[u8],
    number: usize,
    count: usize,
    c: Chain,
) -> Verdict
    ensures { result ≡ judged_counted function kind number count c text.now }
{
    if !response_files::is_count(text, count) {
        return Verdict::Malformed(text.len());
    }
    let second = response_files::after_line(text);
    let Some(size) = response_files::length_field(second, b"Outputlen = ") else {
        return Verdict::Malformed(second.len());
    };
    judge_output(
        function,
        kind,
        response_files::after_line(second),
        number,
        c,
        size,
    )
}

// A case of the files of short and long messages: Len, Msg, Output.
fn judge_length_case(function: Function, text: &[u8], size: usize) -> Verdict
    ensures { result ≡ judged_length function size text.now }
{
    let Some(bytes) = response_files::length_field(text, b"Len = ") else {
        return Verdict::Malformed(text.len());
    };
    judge_message(function, response_files::after_line(text), bytes, size)
}

// One case. The number is the length that the file's header gives, of every output or of every message; the chain stands before the
// last turn of the case.
pub fn judge_case(
    function: Function,
    kind: Kind,
    text: &[u8],
    number: usize,
    count: usize,
    c: Chain,
) -> Verdict
    ensures { result ≡ judged_case function kind number count c text.now }
{
    match kind {
        Kind::Length => judge_length_case(function, text, number),
        Kind::Output => judge_counted_case(function, Kind::Output, text, number, count, c),
        Kind::Monte => judge_counted_case(function, Kind::Monte, text, number, count, c),
    }
}
