#![tactic(auto)]
// What programs over files of test vectors share: the fields of a file, the verdict on a case, and reading a file whole.
ghost use Rattle.std.specs.Prelude.{◌≡◌, List, ℕ, ◌+◌, ◌≤◌, ◌<◌, length, replicate, IfOk};
ghost use Rattle.lists.specs.Table.{zeros};
ghost use Rattle.vectors.specs.Fields.{word32, end_from, start, field, has_field, is_sized, after_case, places};
ghost use Rattle.vectors.specs.Answers.{is_same, verdict_of, bytes_read, one_more, counted, Adds, Judges, tally, report};

use std::fs;
use std::io::Read;
use std::rt::Files;

// ---- fields

// The word that a text starts with; of the bytes of a field, the number that it holds.
fn word(text: &[u8]) -> u32
    ensures { result ≡ word32 text.now }
{
    u32::from_le_bytes([
        octets::byte_at(text, 0),
        octets::byte_at(text, 1),
        octets::byte_at(text, 2),
        octets::byte_at(text, 3),
    ])
}

// Where the field that starts at a place ends, by its length.
fn end_from(text: &[u8], at: usize) -> usize
    requires { at ≤ length text.now }
    ensures { result ≡ end_from at text.now }
{
    at + 4 + word(&text[at..]) as usize
}

// Where field i starts: the bytes of the fields before it.
fn start(text: &[u8], i: usize) -> usize
    ensures { (result ≡ start i text.now) × (result ≤ length text.now) }
{
    let mut at = 0;
    for k in 0..i {
        at = end_from(text, at).min(text.len());
    }
    at
}

// The bytes of field i.
pub fn field(text: &[u8], i: usize) -> &[u8]
    ensures { result.now ≡ field i text.now }
{
    let at = start(text, i);
    let first = (at + 4).min(text.len());
    let end = end_from(text, at).min(text.len());
    &text[first..end]
}

// The number that field i holds.
pub fn number(text: &[u8], i: usize) -> u32
    ensures { result ≡ word32 (field i text.now) }
{
    word(field(text, i))
}

// Whether the text starts with fields 0 to i.
pub fn has_field(text: &[u8], i: usize) -> bool
    ensures { result ≡ has_field i text.now }
{
    end_from(text, start(text, i)) <= text.len()
}

// Whether the text starts with whole fields of these sizes.
pub fn has_sizes(text: &[u8], sizes: &[usize]) -> bool
    ensures { result ≡ is_sized sizes.now text.now }
{
    for (k, size) in sizes.iter().enumerate() {
        if !has_field(text, k) {
            return false;
        }
        if field(text, k).len() != *size {
            return false;
        }
    }
    true
}

// Where the case that starts at a place ends: so many fields on.
pub fn after_case(text: &[u8], at: usize, fields: usize) -> usize
    requires { (at < length text.now) × (0 < fields) }
    ensures { (result ≡ after_case fields at text.now) × (at < result) × (result ≤ length text.now) }
{
    at + start(&text[at..], fields)
}

pub fn same(a: &[u8], b: &[u8]) -> bool
    ensures { result ≡ is_same a.now b.now }
{
    a == b
}

// ---- output buffers: filled before a call, so that a case that is refused shows that nothing was written

pub fn fill(buffer: &mut [u8], value: u8)
    ensures { buffer.new ≡ replicate (length buffer.old) value }
{
    buffer.fill(value);
}

pub fn is_filled(buffer: &[u8], value: u8) -> bool
    ensures { result ≡ is_same buffer.now (replicate (length buffer.now) value) }
{
    buffer.iter().all(|x| *x == value)
}

// ---- cases

// The verdict on a case: three answers on a par.
#[derive(Clone, Copy)]
pub enum Verdict {
    Agreed,
    Differed,
    Malformed,
}

// The verdict by whether the case is whole and of its kind, and whether it agrees.
pub fn judged(sound: bool, agrees: bool) -> Verdict
    ensures { result ≡ verdict_of sound agrees }
{
    if sound {
        if agrees {
            Verdict::Agreed
        } else {
            Verdict::Differed
        }
    } else {
        Verdict::Malformed
    }
}

// How many cases of a file agreed, and how many differed.
#[derive(Clone, Copy)]
pub struct Counts {
    pub agreed: u64,
    pub differed: u64,
}

// Where a file has a case that is not whole or not of its kind, or another line that is wrong.
#[derive(Clone, Copy)]
pub enum MalformedAt {
    // The byte at which the first such case starts.
    Byte(usize),
    // The line, in a file of text.
    Line(usize),
}

// What is said of the cases of a file.
pub type Report = Result<Counts, MalformedAt>;

// The largest count stays.
pub fn one_more(count: u64) -> u64
    ensures { result ≡ one_more count }
{
    count.saturating_add(1)
}

// The report with one case more, which starts at a byte.
pub fn counted(report: Report, verdict: Verdict, at: usize) -> Report
    ensures { result ≡ counted report verdict at }
{
    let counts = report?;
    match verdict {
        Verdict::Agreed => Ok(Counts {
            agreed: one_more(counts.agreed),
            ..counts
        }),
        Verdict::Differed => Ok(Counts {
            differed: one_more(counts.differed),
            ..counts
        }),
        Verdict::Malformed => Err(MalformedAt::Byte(at)),
    }
}

// Works through the cases of a text, each of so many fields: `add` adds the verdict on each, which `judge` gives of the text from its
// place on.
pub fn tally<A, G: Fn(A, Verdict, usize) -> A, J: Fn(&[u8]) -> Verdict>(
    text: &[u8],
    fields: usize,
    none: A,
    add: G,
    judge: J,
) -> A
    requires some { 0 < fields }
    requires adds { G.IsAlwaysCallable add }
    requires judges { J.IsAlwaysCallable judge }
    ensures { (sum : A → Verdict → ℕ → A) (verdict : List ℕ → Verdict) → Adds G.Fn add sum → Judges J.Fn judge verdict → result ≡ tally sum verdict text.now none (places fields text.now) }
{
    let mut so_far = none;
    let mut at = 0;
    while at < text.len() {
        so_far = add(so_far, judge(&text[at..]), at);
        at = after_case(text, at, fields);
    }
    so_far
}

// The report on a text whose cases have so many fields.
pub fn judge_cases<J: Fn(&[u8]) -> Verdict>(text: &[u8], fields: usize, judge: J) -> Report
    requires some { 0 < fields }
    requires judges { J.IsAlwaysCallable judge }
    ensures { (verdict : List ℕ → Verdict) → Judges J.Fn judge verdict → result ≡ report verdict fields text.now }
{
    let none = Counts {
        agreed: 0,
        differed: 0,
    };
    tally(text, fields, Ok(none), counted, judge)
}

// ---- files

// 2 MiB of zeros, which hold a file whole. A function of its own: where a caller has so long a literal itself, the check of that caller ends
// without a verdict after 90 seconds, for want of more than 1 GiB of stack.
pub fn file_buffer() -> [u8; 2097152]
    ensures { result ≡ zeros 2097152 }
{
    [0; 2097152]
}

// Why a file was not read.
#[derive(Clone, Copy)]
pub enum FileError {
    TooLong,
    // It cannot be opened or read, or its name is not UTF-8.
    Missing,
}

// Reads what is left of a file, and answers how many bytes that is. One more read tells whether the file goes on, or cannot be read.
fn read_open<R: Read>(file: &mut R, buffer: &mut [u8]) -> Result<usize, FileError>
    ensures { IfOk result (λ n. n ≤ length buffer.new) }
{
    let Ok(n) = reading::read_full(file, buffer) else {
        return Err(FileError::Missing);
    };
    match file.read(&mut [0]) {
        Ok(0) => Ok(n),
        Ok(_) => Err(FileError::TooLong),
        Err(_) => Err(FileError::Missing),
    }
}

// Reads a whole file into the front of a buffer, and answers how many bytes that is.
pub fn read_file(files: &impl Files, name: &[u8], buffer: &mut [u8]) -> Result<usize, FileError>
    ensures { IfOk result (λ n. n ≤ length buffer.new) }
{
    let Ok(name) = std::str::from_utf8(name) else {
        return Err(FileError::Missing);
    };
    let Ok(mut file) = fs::open(files, name) else {
        return Err(FileError::Missing);
    };
    read_open(&mut file, buffer)
}

// The bytes of a file that was read into the front of a buffer; none where it was not.
pub fn read_bytes(read: Result<usize, FileError>, buffer: &[u8]) -> &[u8]
    ensures { result.now ≡ bytes_read read buffer.now }
{
    match read {
        Ok(n) => &buffer[..n.min(buffer.len())],
        Err(_) => &buffer[..0],
    }
}
