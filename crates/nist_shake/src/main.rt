#![tactic(auto)]
// Works through NIST's byte-oriented response files of SHAKE128 and SHAKE256 and prints a line for each: how many cases agreed and how
// many differed, or what is wrong with the file.
use monte_chain::Function;
use nist_cases::Kind;
use std::io;
use std::rt::Files;

// Works through one file and prints its line.
fn check_file(
    rt: &(impl Files + Print),
    function: Function,
    kind: Kind,
    name: &[u8],
) -> io::Result<()> {
    report_line::check_file(rt, name, |text| {
        nist_reports::judge_file(function, kind, text)
    })
}

fn main(rt: HostRuntime) -> io::Result<()> {
    check_file(
        &rt,
        Function::Shake128,
        Kind::Length,
        b"SHAKE128ShortMsg.rsp",
    )?;
    check_file(
        &rt,
        Function::Shake128,
        Kind::Length,
        b"SHAKE128LongMsg.rsp",
    )?;
    check_file(
        &rt,
        Function::Shake128,
        Kind::Output,
        b"SHAKE128VariableOut.rsp",
    )?;
    check_file(&rt, Function::Shake128, Kind::Monte, b"SHAKE128Monte.rsp")?;
    check_file(
        &rt,
        Function::Shake256,
        Kind::Length,
        b"SHAKE256ShortMsg.rsp",
    )?;
    check_file(
        &rt,
        Function::Shake256,
        Kind::Length,
        b"SHAKE256LongMsg.rsp",
    )?;
    check_file(
        &rt,
        Function::Shake256,
        Kind::Output,
        b"SHAKE256VariableOut.rsp",
    )?;
    check_file(&rt, Function::Shake256, Kind::Monte, b"SHAKE256Monte.rsp")
}
