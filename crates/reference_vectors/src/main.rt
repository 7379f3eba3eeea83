#![tactic(auto)]
// Works through the reference vectors: files of cases of each public call and of the desk program, with what code by other hands answered. It prints a line for
// each file: how many cases agreed and how many differed, or what is wrong with the file. The files of example products, inverses and
// remainders are worked through by ring_vectors, that of products in the tag's field by gf128_vectors.
ghost use Rattle.std.specs.Prelude.{◌≡◌, ◌+◌, ◌≤◌};
ghost use Rattle.vectors.specs.Answers.{report};
ghost use Rattle.reference_vectors.specs.Cases.{last_field};
ghost use Rattle.reference_vectors.specs.Cases.{residue_of, noise_agrees, line_agrees, desk_agrees, agrees, verdict};

use call_cases::Call;
use key_cases::Source;
use std::io;
use std::rt::Files;
use vectors::{Report, Verdict};

// What the cases of a file are of; definitions are by it, so closures would be no plainer.
#[derive(Clone, Copy)]
enum Kind {
    CheckSecretKey,
    Keygen(Source),
    Writing(Call),
    OpenBatch,
    OpenWithMargin,
    Noise,
    Desk,
}

// ---- four bits of noise

const Q: u64 = modq::Q as u64;

// The coefficient of a small number in two's complement.
fn residue(w: u32) -> u64
    ensures { result ≡ residue_of w }
{
    (w as u64 + Q) % 4294967296 % Q
}

fn noise_agrees(text: &[u8]) -> bool
    ensures { result ≡ noise_agrees text.now }
{
    let p = sampling::ternary(vectors::field(text, 0));
    (vectors::number(text, 1) == 0) & (p[0] as u64 == residue(vectors::number(text, 3)))
}

// ---- the desk

// The line that the desk prints, without its line feed.
fn line_agrees(text: &[u8]) -> bool
    ensures { result ≡ line_agrees text.now }
{
    let line = desk_line::line(vectors::field(text, 0));
    let line = line.as_bytes();
    vectors::same(&line[..line.len() - 1], vectors::field(text, 3))
}

// Number, location where the case tells one, and line. The desk prints no location, so a case may tell none.
fn desk_agrees(text: &[u8]) -> bool
    ensures { result ≡ desk_agrees text.now }
{
    let answer = desk_opening::answer(vectors::field(text, 0));
    let numbered = answers::number(answer) == vectors::number(text, 1);
    let words = vectors::field(text, 2);
    let located = case_outputs::is_located(answers::locate(answer), words);
    numbered & ((words.len() == 0) | located) & line_agrees(text)
}

// ---- cases

fn last_field(kind: Kind) -> usize
    ensures { (result ≡ last_field kind) × (result ≤ 8) }
{
    match kind {
        Kind::CheckSecretKey => 2,
        Kind::Keygen(_) => 8,
        Kind::Writing(call) => call_cases::size_field(call) + 3,
        Kind::OpenBatch => 7,
        Kind::OpenWithMargin => 7,
        Kind::Noise => 3,
        Kind::Desk => 3,
    }
}

fn agrees(kind: Kind, text: &[u8]) -> bool
    ensures { result ≡ agrees kind text.now }
{
    match kind {
        Kind::CheckSecretKey => key_cases::check_agrees(text),
        Kind::Keygen(source) => key_cases::keygen_case_agrees(source, text),
        Kind::Writing(call) => call_cases::call_case_agrees(call, text),
        Kind::OpenBatch => batch_cases::open_batch_case_agrees(text),
        Kind::OpenWithMargin => margin_cases::open_margin_case_agrees(text),
        Kind::Noise => noise_agrees(text),
        Kind::Desk => desk_agrees(text),
    }
}

// The verdict on the case that a text starts with.
fn judge(kind: Kind, text: &[u8]) -> Verdict
    ensures { result ≡ verdict kind text.now }
{
    vectors::judged(
        vectors::has_field(text, last_field(kind)),
        agrees(kind, text),
    )
}

fn judge_cases(kind: Kind, text: &[u8]) -> Report
    ensures { result ≡ report (verdict kind) (last_field kind + 1) text.now }
{
    vectors::judge_cases(text, last_field(kind) + 1, |case| judge(kind, case))
}

// ---- files

fn check_file(rt: &(impl Files + Print), kind: Kind, name: &[u8]) -> io::Result<()> {
    report_line::check_file(rt, name, |text| judge_cases(kind, text))
}

fn check_key_files(rt: &(impl Files + Print)) -> io::Result<()> {
    check_file(rt, Kind::Keygen(Source::Stream), b"keygen.bin")?;
    check_file(rt, Kind::Keygen(Source::Seed), b"keygen_from_seed.bin")?;
    check_file(rt, Kind::CheckSecretKey, b"check_secret_key.bin")?;
    check_file(
        rt,
        Kind::Writing(Call::ExpandSecretKey),
        b"expand_secret_key.bin",
    )?;
    check_file(
        rt,
        Kind::Writing(Call::CompactSecretKey),
        b"compact_secret_key.bin",
    )
}

fn check_call_files(rt: &(impl Files + Print)) -> io::Result<()> {
    check_file(rt, Kind::Writing(Call::Encapsulate), b"encapsulate.bin")?;
    check_file(rt, Kind::Writing(Call::Decapsulate), b"decapsulate.bin")?;
    check_file(rt, Kind::Writing(Call::Seal), b"seal.bin")?;
    check_file(rt, Kind::Writing(Call::Open), b"open.bin")?;
    // Entries that were sealed before the noise was read as it is now.
    check_file(rt, Kind::Writing(Call::Open), b"open_sealed_before.bin")?;
    check_file(rt, Kind::Writing(Call::Shake128), b"shake128.bin")?;
    check_file(rt, Kind::Writing(Call::Shake256), b"shake256.bin")
}

fn check_batch_files(rt: &(impl Files + Print)) -> io::Result<()> {
    check_file(rt, Kind::Writing(Call::SealBatch), b"seal_batch.bin")?;
    check_file(rt, Kind::OpenBatch, b"open_batch.bin")
}

fn check_service_file(rt: &(impl Files + Print)) -> io::Result<()> {
    check_file(rt, Kind::OpenWithMargin, b"open_with_margin.bin")
}

fn check_desk_file(rt: &(impl Files + Print)) -> io::Result<()> {
    check_file(rt, Kind::Desk, b"desk.bin")
}

fn check_example_files(rt: &(impl Files + Print)) -> io::Result<()> {
    check_file(rt, Kind::Noise, b"example_noise.bin")
}

fn main(rt: HostRuntime) -> io::Result<()> {
    check_key_files(&rt)?;
    check_call_files(&rt)?;
    check_batch_files(&rt)?;
    check_service_file(&rt)?;
    check_desk_file(&rt)?;
    check_example_files(&rt)
}
