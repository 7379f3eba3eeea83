#![tactic(auto)]
// Works through the worked examples of document 01 ("Lanes to try") that bear no star, and prints each with its result. Where they speak
// of bytes, they go through the public calls. Openings are shown under two dummies: zeros, and one with all three coefficients.
ghost use Rattle.std.specs.Prelude.{◌≡◌, length};
ghost use Rattle.records.specs.Layout.{triple_length};

use answers::{Answer, Location};
use encoding::TERNARY_LENGTH;
use keys::TRIPLE_NOISE_LENGTH;
use modq::Q;
use ntt::Element;
use octets::BLOCK_LENGTH;
use records::{
    ENCAPSULATION_LENGTH, FIRST, PUBLIC_KEY_LENGTH, SECOND, SECRET_KEY_LENGTH, TRIPLE_LENGTH,
};
use sampling::NOISE_LENGTH;
use std::io;

// ---- what is printed

fn print_text(rt: &impl Print, text: &[u8]) -> io::Result<()> {
    rt.write_all(text)
}

// The words of a location behind a comma; nothing where no word is named.
fn print_location(rt: &impl Print, l: Location) -> io::Result<()> {
    let words = location_text::words(l);
    if !words.as_bytes().is_empty() {
        print_text(rt, b", ")?;
        print_text(rt, words.as_bytes())?;
    }
    Ok(())
}

fn print_answer(rt: &impl Print, answer: Answer) -> io::Result<()> {
    print!(rt; "{}", answers::number(answer))?;
    print_location(rt, answers::locate(answer))
}

fn print_answered(rt: &impl Print, name: &[u8], answer: Answer) -> io::Result<()> {
    print_text(rt, name)?;
    print_answer(rt, answer)?;
    print_text(rt, b"\n")
}

// The term m X^k, without the factor 1 where k is not 0.
fn print_monomial(rt: &impl Print, m: u16, k: usize) -> io::Result<()> {
    if k == 0 {
        return print!(rt; "{m}");
    }
    if m != 1 {
        print!(rt; "{m}")?;
        print_text(rt, b" ")?;
    }
    print_text(rt, b"X^")?;
    print!(rt; "{k}")
}

// The term with the coefficient c, which is printed by its centred value.
fn print_term(rt: &impl Print, c: u16, k: usize) -> io::Result<()> {
    let y = c % Q;
    if y <= 29696 {
        print_monomial(rt, y, k)
    } else {
        print_text(rt, b"-")?;
        print_monomial(rt, Q - y, k)
    }
}

// The terms that are not zero, or 0 where there is none.
fn print_polynomial(rt: &impl Print, a: Element) -> io::Result<()> {
    let mut any = false;
    for (k, c) in a.iter().enumerate() {
        if *c != 0 {
            if any {
                print_text(rt, b" + ")?;
            }
            print_term(rt, *c, k)?;
            any = true;
        }
    }
    if !any {
        print_text(rt, b"0")?;
    }
    Ok(())
}

// ---- units

fn print_inverse(rt: &impl Print, name: &[u8], a: Element) -> io::Result<()> {
    print_text(rt, name)?;
    match ring::inverse(a) {
        Some(inverse) => {
            print_text(rt, b": unit, its inverse is ")?;
            print_polynomial(rt, inverse)?;
            print_text(rt, b"\n")
        }
        None => print_text(rt, b": no unit\n"),
    }
}

fn print_units(rt: &impl Print) -> io::Result<()> {
    print_inverse(rt, b"1", example_records::constant(1))?;
    print_inverse(rt, b"0", example_records::constant(0))?;
    print_inverse(rt, b"X", example_records::term(1, 1))
}

// ---- keys

fn print_key_check(rt: &impl Print, name: &[u8], a: u16, b: u16) -> io::Result<()> {
    let key = example_records::secret_key(a, b);
    print_answered(rt, name, key_calls::check_secret_key(&key))
}

fn print_keys(rt: &impl Print) -> io::Result<()> {
    print_key_check(rt, b"key a = 0, b = 5, s = 0: ", 0, 5)?;
    print_key_check(rt, b"key a = 0, b = 10, s = 0: ", 0, 10)?;
    print_key_check(rt, b"key a = 0, b = 0, s = 0: ", 0, 0)
}

// Where e2 starts in a triple.
const E2: usize = 2 * TERNARY_LENGTH;

// ---- openings under the key a = 0, b = 5, s = 0

fn print_triple(rt: &impl Print, triple: &[u8]) -> io::Result<()>
    requires { length triple.now ≡ triple_length }
{
    print_text(rt, b", r = ")?;
    print_polynomial(rt, encoding::decode_ternary(&triple[0..TERNARY_LENGTH]))?;
    print_text(rt, b", e1 = ")?;
    print_polynomial(rt, encoding::decode_ternary(&triple[TERNARY_LENGTH..E2]))?;
    print_text(rt, b", e2 = ")?;
    print_polynomial(rt, encoding::decode_ternary(&triple[E2..TRIPLE_LENGTH]))
}

fn print_opening(rt: &impl Print, c1: u16, c2: u16, dummy: &[u8]) -> io::Result<()> {
    let key = example_records::secret_key(0, 5);
    let c = example_records::encapsulation(c1, c2);
    let mut triple = [0u8; TRIPLE_LENGTH];
    let answer = opening::decapsulate(&key, &c, dummy, &mut triple);
    print_answer(rt, answer)?;
    if let Ok(()) = answer {
        print_triple(rt, &triple)?;
    }
    print_text(rt, b"\n")
}

// The codes of each byte of the second dummy are -1, 0, 1, 0.
fn print_openings_of(rt: &impl Print, name: &[u8], c1: u16, c2: u16) -> io::Result<()> {
    print_text(rt, name)?;
    print_text(rt, b", dummy of zeros: ")?;
    print_opening(rt, c1, c2, &[0u8; TRIPLE_LENGTH])?;
    print_text(rt, name)?;
    print_text(rt, b", another dummy: ")?;
    print_opening(rt, c1, c2, &[18u8; TRIPLE_LENGTH])
}

fn print_openings(rt: &impl Print) -> io::Result<()> {
    print_openings_of(rt, b"(0, 6)", 0, 6)?;
    print_openings_of(rt, b"(0, 59392)", 0, 59392)?;
    print_openings_of(rt, b"(0, 7)", 0, 7)?;
    print_openings_of(rt, b"(2, 0)", 2, 0)
}

// ---- streams

// Key making from the stream with s = 0 and e = 1, and the a that it takes from the stream.
fn print_keygen(rt: &impl Print, name: &[u8], stream: &[u8]) -> io::Result<()> {
    let s = [0u8; NOISE_LENGTH];
    let mut e = [0u8; NOISE_LENGTH];
    e[0] = 1;
    let mut public = [0u8; PUBLIC_KEY_LENGTH];
    let mut secret = [0u8; SECRET_KEY_LENGTH];
    let answer = key_calls::keygen(stream, &s, &e, &mut public, &mut secret);
    print_text(rt, name)?;
    print_answer(rt, answer)?;
    if let Ok(()) = answer {
        print_text(rt, b", a = ")?;
        print_polynomial(rt, encoding::decode_element(&public[FIRST..SECOND]))?;
    }
    print_text(rt, b"\n")
}

// The words 59,392 and 59,393 are the bytes 0, 232 and 1, 232.
fn print_streams(rt: &impl Print) -> io::Result<()> {
    print_keygen(
        rt,
        b"stream with word 59392 first: ",
        &example_records::stream(1, 0, 232),
    )?;
    print_keygen(
        rt,
        b"stream with word 59393 first: ",
        &example_records::stream(1, 1, 232),
    )?;
    print_keygen(
        rt,
        b"stream with 320 words passed over: ",
        &example_records::stream(320, 1, 232),
    )?;
    print_keygen(
        rt,
        b"stream with 321 words passed over: ",
        &example_records::stream(321, 1, 232),
    )
}

// ---- word 59,393 in a record: 4 in a key, and 11 where document 01 has 4 for the others (document 02, No. 3)

fn print_public_key_word(rt: &impl Print) -> io::Result<()> {
    let key = example_records::public_key(59393, 5);
    let mut out = [0u8; ENCAPSULATION_LENGTH];
    let answer = sealing::encapsulate(&key, &[0u8; TRIPLE_LENGTH], &mut out);
    print_answered(rt, b"word 59393 in a public key: ", answer)
}

fn print_encapsulation_word(rt: &impl Print) -> io::Result<()> {
    print_text(rt, b"word 59393 in an encapsulation: ")?;
    print_opening(rt, 59393, 0, &[0u8; TRIPLE_LENGTH])
}

fn print_sealed_entry_word(rt: &impl Print) -> io::Result<()> {
    let key = example_records::secret_key(0, 5);
    let sealed = example_records::sealed_entry(59393, 0);
    let mut out = [0u8; BLOCK_LENGTH];
    let answer = opening::open(&key, &sealed, &[0u8; TRIPLE_NOISE_LENGTH], &mut out);
    print_answered(rt, b"word 59393 in a sealed entry: ", answer)
}

fn print_words(rt: &impl Print) -> io::Result<()> {
    print_key_check(rt, b"word 59393 in a secret key: ", 59393, 5)?;
    print_public_key_word(rt)?;
    print_encapsulation_word(rt)?;
    print_sealed_entry_word(rt)
}

fn main(rt: HostRuntime) -> io::Result<()> {
    print_units(&rt)?;
    print_keys(&rt)?;
    print_openings(&rt)?;
    print_streams(&rt)?;
    print_words(&rt)
}
