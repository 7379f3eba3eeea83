// Hexadecimal text as ASCII bytes: lowercase is written, both cases are read. Every function takes any bytes and buffers of any length.
#![tactic(auto)]

ghost use Rattle.std.specs.Prelude.{◌≡◌, ◌*◌, ◌/◌, ◌%◌, ◌≤◌, min, length, take};
ghost use Rattle.lists.specs.First.{first_failing};
ghost use Rattle.hexadecimal.specs.Hex.{digit_of, value_of, is_digit, text_of, bytes_of, decoded, written};

// The digit of n modulo 16.
pub fn digit(n: u8) -> u8
    ensures { result ≡ digit_of (n % 16) }
{
    let low = n % 16;
    if low < 10 { b'0' + low } else { 87 + low }
}

// The value of a digit. It is 16 for any other byte, as in the definition that the theorems cite.
pub fn value(c: u8) -> u8
    ensures { result ≡ value_of c }
{
    match c {
        b'0'..=b'9' => c - b'0',
        b'a'..=b'f' => c - 87,
        b'A'..=b'F' => c - 55,
        _ => 16,
    }
}

// How many digits the text starts with.
fn count_digits(text: &[u8]) -> usize
    ensures { result ≡ first_failing is_digit text.now }
{
    text.iter()
        .position(|c| value(*c) >= 16)
        .unwrap_or(text.len())
}

// Fills a buffer that the text of the bytes fills, or part of it. By index, as the next: of what an adapter of `iter_mut` has written, the
// library's contracts say nothing.
fn put_text(bytes: &[u8], out: &mut [u8])
    requires { length out.old ≤ 2 * length bytes.now }
    ensures { out.new ≡ take (length out.old) (text_of bytes.now) }
{
    for i in 0..out.len() {
        let b = bytes[i / 2];
        out[i] = if i % 2 == 0 { digit(b / 16) } else { digit(b) };
    }
}

// Fills a buffer that the digits at the front of the text fill.
fn put_bytes(text: &[u8], out: &mut [u8])
    requires { 2 * length out.old ≤ first_failing is_digit text.now }
    ensures { out.new ≡ take (length out.old) (bytes_of text.now) }
{
    for i in 0..out.len() {
        out[i] = 16 * value(text[2 * i]) + value(text[2 * i + 1]);
    }
}

// Writes the text of the bytes, two digits a byte. A shorter buffer gets the digits that it has room for, and of a longer one
// the rest stays as it is.
pub fn encode(bytes: &[u8], out: &mut [u8])
    ensures { out.new ≡ written (text_of bytes.now) out.old }
{
    let n = (2 * bytes.len()).min(out.len());
    put_text(bytes, &mut out[..n]);
}

// Writes the bytes of the pairs of digits that the text starts with, and answers how many it wrote. It stops at a pair that is
// incomplete or holds a byte that is no digit, and where the buffer ends: so a text of digits whose bytes all fit is one of twice
// the length that is answered.
pub fn decode(text: &[u8], out: &mut [u8]) -> usize
    ensures value { result ≡ min (length (decoded text.now)) (length out.old) }
    ensures out_after { out.new ≡ written (decoded text.now) out.old }
{
    let n = (count_digits(text) / 2).min(out.len());
    put_bytes(text, &mut out[..n]);
    n
}
