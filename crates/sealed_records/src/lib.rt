// What is sealed to a key, as bytes: sealed entries and encapsulations, read and written.
// The calls test every length first, so the functions here are lent buffers of the record's length.
#![tactic(auto)]

ghost use Rattle.std.specs.Prelude.{◌≡◌, ◌≤◌, length};
ghost use Rattle.answers.specs.declared.EncapsulationRecord.TheVariants as Kind;
ghost use Rattle.records.specs.Layout.{third_place, sealed_entry_length, encapsulation_length};
ghost use Rattle.records.specs.Records.{c1_word, c2_word, sealed_entry_bytes};
ghost use Rattle.records.specs.Records.{encapsulation_answer, encapsulation_bytes};
ghost use Rattle.records.specs.Read.{places_answer};
ghost use Rattle.sealed_records.specs.Front.{sealed_front_answer, front_encapsulation, bare_encapsulation};
ghost use Rattle.answers.specs.Answers.{and_then};

use answers::{Answer, EncapsulationPart, EncapsulationRecord, Refusal};
use encoding::ELEMENT_LENGTH;
use octets::BLOCK_LENGTH;
use records::{ENCAPSULATION_LENGTH, Places, SEALED_ENTRY_LENGTH, SEALED_ENTRY_MARK, TAG, THIRD};
use scheme::Encapsulation;

// ---- sealed entries

// "PLG", version 1.
pub const SEALED_ENTRY_VERSION: u16 = 1;

// What the words of a sealed entry are answered by; the first that is q or more is named.
fn sealed_words_answer(at: Places) -> Answer
    ensures { result ≡ places_answer at (c1_word Kind.SealedEntry at.first) (c2_word Kind.SealedEntry at.second) }
{
    let c1 = EncapsulationRecord::SealedEntry(EncapsulationPart::C1(at.first));
    let c2 = EncapsulationRecord::SealedEntry(EncapsulationPart::C2(at.second));
    records::places_answer(
        at,
        Refusal::EncapsulationOutOfRange(c1),
        Refusal::EncapsulationOutOfRange(c2),
    )
}

// c1 and c2 from the front of a sealed entry or of a batch, by its version; `between` is what is answered between its header and its words.
pub fn read_sealed(bytes: &[u8], version: u16, between: Answer) -> Result<Encapsulation, Refusal>
    requires { third_place ≤ length bytes.now }
    ensures { result ≡ and_then (sealed_front_answer version between bytes.now) (Ok (front_encapsulation bytes.now)) }
{
    let read = records::read_record(bytes, SEALED_ENTRY_MARK, version)?;
    between?;
    sealed_words_answer(read.unreduced)?;
    let c1 = read.first;
    let c2 = read.second;
    Ok(Encapsulation { c1, c2 })
}

pub fn write_sealed_entry(
    c: Encapsulation,
    body: [u8; BLOCK_LENGTH],
    tag: [u8; BLOCK_LENGTH],
    out: &mut [u8],
)
    requires { length out.old ≡ sealed_entry_length }
    ensures { out.new ≡ sealed_entry_bytes c.c1 c.c2 body tag }
{
    records::write_record(SEALED_ENTRY_MARK, SEALED_ENTRY_VERSION, c.c1, c.c2, out);
    octets::write_block(body, &mut out[THIRD..TAG]);
    octets::write_block(tag, &mut out[TAG..SEALED_ENTRY_LENGTH]);
}

// ---- encapsulations

// What the words of an encapsulation are answered by; the first that is q or more is named.
fn words_answer(at: Places) -> Answer
    ensures { result ≡ places_answer at (c1_word Kind.Encapsulation at.first) (c2_word Kind.Encapsulation at.second) }
{
    let c1 = EncapsulationRecord::Encapsulation(EncapsulationPart::C1(at.first));
    let c2 = EncapsulationRecord::Encapsulation(EncapsulationPart::C2(at.second));
    records::places_answer(
        at,
        Refusal::EncapsulationOutOfRange(c1),
        Refusal::EncapsulationOutOfRange(c2),
    )
}

pub fn read_encapsulation(bytes: &[u8]) -> Result<Encapsulation, Refusal>
    requires { length bytes.now ≡ encapsulation_length }
    ensures { result ≡ and_then (encapsulation_answer bytes.now) (Ok (bare_encapsulation bytes.now)) }
{
    let c1 = encoding::decode_element(&bytes[0..ELEMENT_LENGTH]);
    let c2 = encoding::decode_element(&bytes[ELEMENT_LENGTH..ENCAPSULATION_LENGTH]);
    words_answer(Places {
        first: encoding::first_unreduced(c1),
        second: encoding::first_unreduced(c2),
    })?;
    Ok(Encapsulation { c1, c2 })
}

pub fn write_encapsulation(c: Encapsulation, out: &mut [u8])
    requires { length out.old ≡ encapsulation_length }
    ensures { out.new ≡ encapsulation_bytes c.c1 c.c2 }
{
    encoding::encode_element(c.c1, &mut out[0..ELEMENT_LENGTH]);
    encoding::encode_element(c.c2, &mut out[ELEMENT_LENGTH..ENCAPSULATION_LENGTH]);
}
