// What a call answers: its number, the place of a word that is out of range, both as one code, and the answer of a check.
#![tactic(auto)]

ghost use Rattle.std.specs.Prelude.{◌≡◌};
ghost use Rattle.answers.specs.Answers.{refusal_number, number, unless, Done};
ghost use Rattle.answers.specs.Locations.{in_key_part, in_key, in_encapsulation_part, in_encapsulation, refusal_location, location, code};

// ---- answers

// The part of a key that has a word of q or more, and the index of its first; an expanded secret key has the inverse of b.
#[derive(Clone, Copy, Debug, PartialEq, Eq)]
pub enum KeyPart {
    A(usize),
    B(usize),
    StoredInverse(usize),
}

// The key that has it.
#[derive(Clone, Copy, Debug, PartialEq, Eq)]
pub enum KeyRecord {
    PublicKey(KeyPart),
    SeededPublicKey(KeyPart),
    SecretKey(KeyPart),
}

// The part of an encapsulation, bare or sealed with an entry, that has a word of q or more, and the index of its first.
#[derive(Clone, Copy, Debug, PartialEq, Eq)]
pub enum EncapsulationPart {
    C1(usize),
    C2(usize),
}

// The record that holds it.
#[derive(Clone, Copy, Debug, PartialEq, Eq)]
pub enum EncapsulationRecord {
    SealedEntry(EncapsulationPart),
    Encapsulation(EncapsulationPart),
}

// Why a call refuses: document 01's numbers 1 to 10, and document 02's 11 to 13.
#[derive(Clone, Copy, Debug, PartialEq, Eq)]
pub enum Refusal {
    WrongLength,
    WrongMark,
    WrongVersion,
    KeyOutOfRange(KeyRecord),
    InvalidCode,
    NotInvertible,
    KeyMismatch,
    StreamExhausted,
    DecapsulationFailure,
    TagMismatch,
    EncapsulationOutOfRange(EncapsulationRecord),
    WrongCount,
    InverseMismatch,
}

// What a call answers that gives no value: it is done, or refused.
pub type Answer = Result<(), Refusal>;

// ---- the number

impl From<Refusal> for u32 {
    ghost from_gives = { λ r n. n ≡ refusal_number r };

    fn from(r: Refusal) -> u32 {
        match r {
            Refusal::WrongLength => 1,
            Refusal::WrongMark => 2,
            Refusal::WrongVersion => 3,
            Refusal::KeyOutOfRange(_) => 4,
            Refusal::InvalidCode => 5,
            Refusal::NotInvertible => 6,
            Refusal::KeyMismatch => 7,
            Refusal::StreamExhausted => 8,
            Refusal::DecapsulationFailure => 9,
            Refusal::TagMismatch => 10,
            Refusal::EncapsulationOutOfRange(_) => 11,
            Refusal::WrongCount => 12,
            Refusal::InverseMismatch => 13,
        }
    }
}

// The number of an answer.
pub fn number(a: Answer) -> u32
    ensures { result ≡ number a }
{
    match a {
        Ok(()) => 0,
        Err(r) => r.into(),
    }
}

// ---- the location

// Where the first word of q or more stands: the codes of the record's kind and of the part, and its index. Zeros where the answer names no word.
// Kinds and parts stay numbers: they are those of include/polka.h, and the theorems on named words (`Names`, `NamedInTwo`, `LocatedExact`) speak of them.
#[derive(Clone, Copy)]
pub struct Location {
    pub kind: u32,
    pub part: u32,
    pub index: usize,
}

fn in_key_part(kind: u32, p: KeyPart) -> Location
    ensures { result ≡ in_key_part kind p }
{
    match p {
        KeyPart::A(index) => Location {
            kind,
            part: 1,
            index,
        },
        KeyPart::B(index) => Location {
            kind,
            part: 2,
            index,
        },
        KeyPart::StoredInverse(index) => Location {
            kind,
            part: 3,
            index,
        },
    }
}

fn in_key(k: KeyRecord) -> Location
    ensures { result ≡ in_key k }
{
    match k {
        KeyRecord::PublicKey(p) => in_key_part(1, p),
        KeyRecord::SeededPublicKey(p) => in_key_part(2, p),
        KeyRecord::SecretKey(p) => in_key_part(3, p),
    }
}

fn in_encapsulation_part(kind: u32, p: EncapsulationPart) -> Location
    ensures { result ≡ in_encapsulation_part kind p }
{
    match p {
        EncapsulationPart::C1(index) => Location {
            kind,
            part: 4,
            index,
        },
        EncapsulationPart::C2(index) => Location {
            kind,
            part: 5,
            index,
        },
    }
}

fn in_encapsulation(c: EncapsulationRecord) -> Location
    ensures { result ≡ in_encapsulation c }
{
    match c {
        EncapsulationRecord::SealedEntry(p) => in_encapsulation_part(4, p),
        EncapsulationRecord::Encapsulation(p) => in_encapsulation_part(5, p),
    }
}

fn locate_refusal(r: Refusal) -> Location
    ensures { result ≡ refusal_location r }
{
    match r {
        Refusal::KeyOutOfRange(k) => in_key(k),
        Refusal::EncapsulationOutOfRange(c) => in_encapsulation(c),
        _ => Location {
            kind: 0,
            part: 0,
            index: 0,
        },
    }
}

// The place that an answer names.
pub fn locate(a: Answer) -> Location
    ensures { result ≡ location a }
{
    match a {
        Ok(()) => Location {
            kind: 0,
            part: 0,
            index: 0,
        },
        Err(r) => locate_refusal(r),
    }
}

// ---- both as one number, the answer of an export

// What the calls name has an index below 1,024; the remainder keeps every other within its twelve bits.
pub fn code(a: Answer) -> u32
    ensures { result ≡ code a }
{
    let l = locate(a);
    number(a) + 256 * l.part + 4096 * l.kind + 65536 * ((l.index % 4096) as u32)
}

// ---- a check

// Done where the test passes.
pub fn unless(passes: bool, refusal: Refusal) -> Answer
    ensures { result ≡ unless passes refusal Done }
{
    if passes {
        return Ok(());
    }
    Err(refusal)
}
