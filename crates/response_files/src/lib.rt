// The text of NIST's response files: lines, numbers, fields in hexadecimal, and the lines before the first case. Every function takes
// any bytes.
#![tactic(auto)]

ghost use Rattle.std.specs.Prelude.{◌≡◌, length};
ghost use Rattle.lists.specs.First.{first_failing};
ghost use Rattle.hexadecimal.specs.Hex.{decoded, written};
ghost use Rattle.response_files.specs.Lines.{in_line, after_line, without_return, line_of, value_of, is_blank, line_at};
ghost use Rattle.response_files.specs.Fields.{decimal_of, whole_bytes, length_field, is_count, is_hex};
ghost use Rattle.response_files.specs.Headers.{is_remark, is_preamble, length_header, body, header_number};

// ---- lines

// The place of the first line feed; the length where there is none.
fn line_feed(text: &[u8]) -> usize
    ensures { result ≡ first_failing in_line text.now }
{
    text.iter().position(|c| *c == b'\n').unwrap_or(text.len())
}

// What stands behind the first line.
pub fn after_line(text: &[u8]) -> &[u8]
    ensures { result.now ≡ after_line text.now }
{
    let n = line_feed(text);
    if n < text.len() {
        return &text[n + 1..];
    }
    &text[0..0]
}

// A line without a carriage return at its end.
fn without_return(line: &[u8]) -> &[u8]
    ensures { result.now ≡ without_return line.now }
{
    line.strip_suffix(b"\r").unwrap_or(line)
}

// The first line without its end; nothing where no line feed follows. No option, here and below: the definitions give the empty string, as of a
// line that is empty.
fn first_line(text: &[u8]) -> &[u8]
    ensures { result.now ≡ line_of text.now }
{
    let n = line_feed(text);
    if n < text.len() {
        return without_return(&text[..n]);
    }
    &text[0..0]
}

// What follows the name in the first line; nothing where the line does not start with the name.
pub fn value<'a>(text: &'a [u8], name: &[u8]) -> &'a [u8]
    ensures { result.now ≡ value_of name.now text.now }
{
    first_line(text).strip_prefix(name).unwrap_or(&[])
}

// Whether the first line is there and has nothing before its end.
pub fn is_blank(text: &[u8]) -> bool
    ensures { result ≡ is_blank text.now }
{
    line_feed(text) < text.len() && first_line(text).is_empty()
}

// The number of the line at which `left` bytes of the text are left.
pub fn line_number(text: &[u8], left: usize) -> usize
    ensures { result ≡ line_at left text.now }
{
    let before = text.len().saturating_sub(left);
    1 + text[..before].iter().filter(|c| **c == b'\n').count()
}

// ---- fields

// The number that the digits spell, if it is below 1,000,000,000.
fn decimal(text: &[u8]) -> Option<usize>
    ensures { result ≡ decimal_of text.now }
{
    if text.is_empty() {
        return None;
    }
    let mut n = 0;
    for c in text {
        if *c < b'0' || *c > b'9' || n >= 100000000 {
            return None;
        }
        n = 10 * n + (*c - b'0') as usize;
    }
    Some(n)
}

// A length in bits as whole bytes.
fn whole_bytes(bits: Option<usize>) -> Option<usize>
    ensures { result ≡ whole_bytes bits }
{
    let n = bits?;
    if n % 8 == 0 { Some(n / 8) } else { None }
}

// The length in bits that a line gives, in bytes.
pub fn length_field(text: &[u8], name: &[u8]) -> Option<usize>
    ensures { result ≡ length_field name.now text.now }
{
    whole_bytes(decimal(value(text, name)))
}

// Whether the line `COUNT = ` has this number.
pub fn is_count(text: &[u8], count: usize) -> bool
    ensures { result ≡ is_count count text.now }
{
    decimal(value(text, b"COUNT = ")) == Some(count)
}

// Whether the text is just size bytes in hexadecimal, one or more, for which out has room. What it starts with is decoded into out.
pub fn read_hex(text: &[u8], size: usize, out: &mut [u8]) -> bool
    ensures value { result ≡ is_hex (length out.old) size text.now }
    ensures out_after { out.new ≡ written (decoded text.now) out.old }
{
    let n = hexadecimal::decode(text, out);
    if n == 0 {
        return false;
    }
    if n != size {
        return false;
    }
    text.len() == 2 * n
}

// ---- the lines before the first case

// Whether a line is a comment or a header.
fn is_remark(line: &[u8]) -> bool
    ensures { result ≡ is_remark line.now }
{
    line.starts_with(b"#") || (line.starts_with(b"[") && line.ends_with(b"]"))
}

// Whether the first line is blank, a comment or a header.
fn is_preamble(text: &[u8]) -> bool
    ensures { result ≡ is_preamble text.now }
{
    is_blank(text) || is_remark(first_line(text))
}

// The length in bits that a header gives, in bytes; a header ends with a bracket.
fn length_header(text: &[u8], name: &[u8]) -> Option<usize>
    ensures { result ≡ length_header name.now text.now }
{
    let (_, digits) = value(text, name).split_last()?;
    whole_bytes(decimal(digits))
}

// What follows the lines before the first case.
pub fn body(text: &[u8]) -> &[u8]
    ensures { result.now ≡ body text.now }
{
    let mut rest = text;
    while is_preamble(rest) {
        rest = after_line(rest);
    }
    rest
}

// The length that the last header of a name gives, in bytes; 0 where there is none, as the definition has it, which that of the report cites.
pub fn header_number(text: &[u8], name: &[u8]) -> usize
    ensures { result ≡ header_number name.now text.now }
{
    let mut rest = text;
    let mut number = 0;
    while is_preamble(rest) {
        number = length_header(rest, name).unwrap_or(number);
        rest = after_line(rest);
    }
    number
}
