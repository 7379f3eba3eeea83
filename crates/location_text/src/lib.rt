// A location in words: the record, the part and the index of the word that an answer names.
#![tactic(auto)]

ghost use Rattle.std.specs.Prelude.{◌≡◌};
ghost use Rattle.location_text.specs.Words.{record_name, part_name, location_text};

use answers::Location;
use text::Text;

// The longest text: `seeded_public_key stored_inverse ` and the 20 digits of an index of 64 bits.
pub const TEXT_LENGTH: usize = 53;

// The name of a record by its code; the codes are those of the C interface.
fn record_name(kind: u32) -> &'static [u8]
    ensures { result.now ≡ record_name kind }
{
    match kind {
        1 => b"public_key",
        2 => b"seeded_public_key",
        3 => b"secret_key",
        4 => b"sealed_entry",
        5 => b"encapsulation",
        _ => b"",
    }
}

// The name of a part likewise.
fn part_name(part: u32) -> &'static [u8]
    ensures { result.now ≡ part_name part }
{
    match part {
        1 => b"a",
        2 => b"b",
        3 => b"stored_inverse",
        4 => b"c1",
        5 => b"c2",
        _ => b"",
    }
}

// The words of any location.
pub fn words(l: Location) -> Text<TEXT_LENGTH>
    ensures { result ≡ location_text l }
{
    let mut text = Text::new();
    if l.kind == 0 {
        return text;
    }
    text.push(record_name(l.kind));
    text.push(b" ");
    text.push(part_name(l.part));
    text.push(b" ");
    text.push_decimal(l.index as u64);
    text
}
