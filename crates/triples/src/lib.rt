// A triple of ternary polynomials as bytes: what the check of its codes answers, its parts, and how it is written.
#![tactic(auto)]

ghost use Rattle.std.specs.Prelude.{◌≡◌, length};
ghost use Rattle.scheme.specs.Answers as Struct;
ghost use Rattle.encoding.specs.Buffers.{put_front};
ghost use Rattle.records.specs.Layout.{triple_length};
ghost use Rattle.triples.specs.Triple.{triple_of, triple_answer, triple_bytes};

use answers::Answer;
use encoding::TERNARY_LENGTH;
use records::TRIPLE_LENGTH;
use scheme::Triple;

// Where e1 and e2 start.
const E1: usize = TERNARY_LENGTH;

const E2: usize = 2 * TERNARY_LENGTH;

// 5: no code of a triple is 3.
pub fn check_triple(bytes: &[u8]) -> Answer
    requires { length bytes.now ≡ triple_length }
    ensures { result ≡ triple_answer bytes.now }
{
    records::check_codes(&bytes[0..E1])?;
    records::check_codes(&bytes[E1..E2])?;
    records::check_codes(&bytes[E2..TRIPLE_LENGTH])
}

// Of 768 bytes, whatever their codes.
pub fn read_triple(bytes: &[u8]) -> Triple
    requires { length bytes.now ≡ triple_length }
    ensures { Struct.triple_of result ≡ triple_of bytes.now }
{
    let r = encoding::decode_ternary(&bytes[0..E1]);
    let e1 = encoding::decode_ternary(&bytes[E1..E2]);
    let e2 = encoding::decode_ternary(&bytes[E2..TRIPLE_LENGTH]);
    Triple { r, e1, e2 }
}

// Writes the bytes of a triple at the front of a buffer; one that is too short stays as it came.
pub fn write_triple(t: Triple, out: &mut [u8])
    ensures { out.new ≡ put_front (triple_bytes t.r t.e1 t.e2) out.old }
{
    if out.len() >= TRIPLE_LENGTH {
        encoding::encode_ternary(t.r, &mut out[0..E1]);
        encoding::encode_ternary(t.e1, &mut out[E1..E2]);
        encoding::encode_ternary(t.e2, &mut out[E2..TRIPLE_LENGTH]);
    }
}
