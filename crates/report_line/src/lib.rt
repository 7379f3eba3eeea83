// The line that a program prints on a file of test vectors: the file's name, and how many cases agreed and how many differed, or what is
// wrong with the file.
#![tactic(auto)]

ghost use Rattle.std.specs.Prelude.{◌≡◌, List, ℕ, ◌++◌, take};
ghost use Rattle.vectors.specs.Answers.{Report};
ghost use Rattle.report_line.specs.Line.{malformed_text, counts_text, report_text, file_text, file_line, Reports, judged_file};

use std::io;
use std::rt::Files;
use text::Text;
use vectors::{Counts, FileError, MalformedAt, Report};

// A longer line is cut, which is only one with a name of more than 195 bytes.
pub const LINE_LENGTH: usize = 256;

fn push_malformed(line: &mut Text<LINE_LENGTH>, what: &[u8], place: u64)
    ensures { line.new ≡ take 256 (line.old ++ malformed_text what.now place) }
{
    line.push(b"malformed at ");
    line.push(what);
    line.push_decimal(place);
}

fn push_counts(line: &mut Text<LINE_LENGTH>, counts: Counts)
    ensures { line.new ≡ take 256 (line.old ++ counts_text counts) }
{
    line.push_decimal(counts.agreed);
    line.push(b" agreed, ");
    line.push_decimal(counts.differed);
    line.push(b" differed");
}

fn push_report(line: &mut Text<LINE_LENGTH>, report: Report)
    ensures { line.new ≡ take 256 (line.old ++ report_text report) }
{
    match report {
        // A file without a case is malformed from its start.
        Ok(
            Counts {
                agreed: 0,
                differed: 0,
            },
        ) => push_malformed(line, b"byte ", 0),
        Ok(counts) => push_counts(line, counts),
        Err(MalformedAt::Byte(place)) => push_malformed(line, b"byte ", place as u64),
        Err(MalformedAt::Line(place)) => push_malformed(line, b"line ", place as u64),
    }
}

fn push_file(line: &mut Text<LINE_LENGTH>, read: Result<Report, FileError>)
    ensures { line.new ≡ take 256 (line.old ++ file_text read) }
{
    match read {
        Ok(report) => push_report(line, report),
        Err(FileError::TooLong) => line.push(b"too long"),
        Err(FileError::Missing) => line.push(b"missing"),
    }
}

// The line of a file: the report on it, or why it was not read.
pub fn line(name: &[u8], read: Result<Report, FileError>) -> Text<LINE_LENGTH>
    ensures { result ≡ take 256 (file_line name.now read) }
{
    let mut line = Text::new();
    line.push(name);
    line.push(b": ");
    push_file(&mut line, read);
    line.push(b"\n");
    line
}

// Prints the line of a file. What stands on the standard output no contract can say.
pub fn print(out: &impl Print, name: &[u8], read: Result<Report, FileError>) -> io::Result<()> {
    out.write_all(line(name, read).as_bytes())
}

// What is said of a file that was read into the front of a buffer: the report that `judge` gives of its bytes, or why it was not read.
fn judged_file<J: FnOnce(&[u8]) -> Report>(
    read: Result<usize, FileError>,
    buffer: &[u8],
    judge: J,
) -> Result<Report, FileError>
    requires { J.IsAlwaysCallable judge }
    ensures { (report : List ℕ → Report) → Reports J.FnOnce judge report → result ≡ judged_file report read buffer.now }
{
    match read {
        Ok(_) => Ok(judge(vectors::read_bytes(read, buffer))),
        Err(e) => Err(e),
    }
}

// Works through one file and prints its line. What a file holds and what is printed no contract can say; what is made of the bytes between
// the two is said by `judged_file` and `line`.
pub fn check_file<J: FnOnce(&[u8]) -> Report>(
    rt: &(impl Files + Print),
    name: &[u8],
    judge: J,
) -> io::Result<()>
    requires { J.IsAlwaysCallable judge }
{
    let mut buffer = vectors::file_buffer();
    let read = vectors::read_file(rt, name, &mut buffer);
    print(rt, name, judged_file(read, &buffer, judge))
}
