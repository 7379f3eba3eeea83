// The line of what was opened: a number and, where that is 0, an entry in hexadecimal.
#![tactic(auto)]

ghost use Rattle.std.specs.Prelude.{◌≡◌, [], ◌∷◌, take};
ghost use Rattle.hexadecimal.specs.Hex.{text_of};
ghost use Rattle.answer_line.specs.Line.{line_of, opened_line};

use answers::Refusal;
use octets::BLOCK_LENGTH;
use text::Text;

// The longest line: a digit, a space, the digits of an entry and a line feed.
pub const LINE_LENGTH: usize = 3 + 2 * BLOCK_LENGTH;

// A number, a space, what is shown and a line feed, as far as there is room.
fn line_of(n: u32, shown: &[u8]) -> Text<LINE_LENGTH>
    ensures { result ≡ take 35 (line_of n shown.now) }
{
    let mut line = Text::new();
    line.push_decimal(n as u64);
    line.push(b" ");
    line.push(shown);
    line.push(b"\n");
    line
}

// The line of an entry.
fn entry_line(entry: [u8; BLOCK_LENGTH]) -> Text<LINE_LENGTH>
    ensures { result ≡ line_of 0 (text_of entry) }
{
    let mut digits = [0u8; 2 * BLOCK_LENGTH];
    hexadecimal::encode(&entry, &mut digits);
    line_of(0, &digits)
}

// The line of the refusal with number n.
pub fn refusal_line(n: u32) -> Text<LINE_LENGTH>
    ensures { result ≡ line_of n (45 ∷ []) }
{
    line_of(n, b"-")
}

// The line of what was opened, an entry or a refusal.
pub fn line(opened: Result<[u8; BLOCK_LENGTH], Refusal>) -> Text<LINE_LENGTH>
    ensures { result ≡ opened_line opened }
{
    match opened {
        Ok(entry) => entry_line(entry),
        Err(refusal) => refusal_line(refusal.into()),
    }
}
