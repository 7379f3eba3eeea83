// What is reported of a response file.
#![tactic(auto)]

ghost use Rattle.std.specs.Prelude.{◌≡◌};
ghost use Rattle.nist_reports.specs.Reports.{after_case, next_chain, report_on, no_chain, first_chain, is_monte, report_plain, report_monte, report_of};

use monte_chain::{Chain, Function};
use nist_cases::{Kind, Verdict};
use vectors::{Counts, MalformedAt, Report};

// What stands behind the lines of a case.
fn after_case(kind: Kind, text: &[u8]) -> &[u8]
    ensures { result.now ≡ after_case kind text.now }
{
    let second = response_files::after_line(text);
    let third = response_files::after_line(second);
    let rest = response_files::after_line(third);
    match kind {
        Kind::Length => rest,
        Kind::Output => response_files::after_line(rest),
        Kind::Monte => rest,
    }
}

// The chain of the next case; only a Monte file has one.
fn next_chain(function: Function, kind: Kind, c: Chain) -> Chain
    ensures { result ≡ next_chain function kind c }
{
    match kind {
        Kind::Length => c,
        Kind::Output => c,
        Kind::Monte => monte_chain::many_turns(function, c, 1000),
    }
}

// Judges the cases of a body. Lines are counted in the whole text.
fn judge_cases(
    function: Function,
    kind: Kind,
    text: &[u8],
    body: &[u8],
    number: usize,
    c: Chain,
) -> Report
    ensures { result ≡ report_on function kind number c text.now body.now }
{
    let mut rest = body;
    let mut c = c;
    let mut agreed = 0;
    let mut differed = 0;
    while rest.len() > 0 {
        if response_files::is_blank(rest) {
            rest = response_files::after_line(rest);
        } else {
            match nist_cases::judge_case(function, kind, rest, number, agreed + differed, c) {
                Verdict::Agreed => {
                    agreed += 1;
                }
                Verdict::Differed => {
                    differed += 1;
                }
                Verdict::Malformed(left) => {
                    return Err(MalformedAt::Line(response_files::line_number(text, left)));
                }
            }
            c = next_chain(function, kind, c);
            rest = after_case(kind, rest);
        }
    }
    if agreed + differed == 0 {
        return Err(MalformedAt::Line(response_files::line_number(text, 0)));
    }
    Ok(Counts {
        agreed: agreed as u64,
        differed: differed as u64,
    })
}

fn no_chain() -> Chain
    ensures { result ≡ no_chain }
{
    Chain {
        message: [0; 16],
        extra: 0,
    }
}

// A file whose named header gives the length of all outputs or of all messages.
fn judge_plain(function: Function, kind: Kind, text: &[u8], name: &[u8]) -> Report
    ensures { result ≡ report_plain function kind name.now text.now }
{
    let body = response_files::body(text);
    let number = response_files::header_number(text, name);
    if number == 0 {
        return Err(MalformedAt::Line(response_files::line_number(text, body.len())));
    }
    judge_cases(function, kind, text, body, number, no_chain())
}

// Whether the headers of a Monte file give the function's least and greatest sizes, and a message of 16 bytes follows them.
fn is_monte(function: Function, text: &[u8], body: &[u8]) -> bool
    ensures { result ≡ is_monte function text.now body.now }
{
    if response_files::header_number(text, b"[Minimum Output Length (bits) = ")
        != monte_chain::least_size(function)
    {
        return false;
    }
    if response_files::header_number(text, b"[Maximum Output Length (bits) = ")
        != monte_chain::greatest_size(function)
    {
        return false;
    }
    let mut message = [0u8; 16];
    response_files::read_hex(response_files::value(body, b"Msg = "), 16, &mut message)
}

// The chain before the last turn of the first case.
fn first_chain(function: Function, digits: &[u8]) -> Chain
    ensures { result ≡ first_chain function digits.now }
{
    let mut message = [0u8; 16];
    hexadecimal::decode(digits, &mut message);
    let extra = monte_chain::greatest_size(function) - monte_chain::least_size(function);
    monte_chain::many_turns(function, Chain { message, extra }, 999)
}

// A Monte file: the line `Msg = ` after the headers starts the chain.
fn judge_monte(function: Function, text: &[u8]) -> Report
    ensures { result ≡ report_monte function text.now }
{
    let body = response_files::body(text);
    if !is_monte(function, text, body) {
        return Err(MalformedAt::Line(response_files::line_number(text, body.len())));
    }
    let chain = first_chain(function, response_files::value(body, b"Msg = "));
    judge_cases(
        function,
        Kind::Monte,
        text,
        response_files::after_line(body),
        0,
        chain,
    )
}

pub fn judge_file(function: Function, kind: Kind, text: &[u8]) -> Report
    ensures { result ≡ report_of function kind text.now }
{
    match kind {
        Kind::Length => judge_plain(function, Kind::Length, text, b"[Outputlen = "),
        Kind::Output => judge_plain(function, Kind::Output, text, b"[Input Length = "),
        Kind::Monte => judge_monte(function, text),
    }
}
