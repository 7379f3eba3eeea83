#![tactic(auto)]
// Works through samples with known results. It prints the coefficient of each four bits, how many of two words are taken, and on how
// many of the cases of key making on standard input the samples agree with the keys.
ghost use Rattle.std.specs.Prelude.{◌≡◌, ◌<◌};
ghost use Rattle.sampling.specs.Noise.{noise_coefficient};

use modq::Q;
use sampling_cases::Counts;
use std::io;

const MINUS_ONE: u16 = Q - 1;

fn print_count(rt: &impl Print, count: u64, what: &[u8]) -> io::Result<()> {
    print!(rt; "{count}")?;
    rt.write_all(what)
}

fn print_counts(rt: &impl Print, c: Counts) -> io::Result<()> {
    rt.write_all(b"keys: ")?;
    print_count(rt, c.agreed, b" agreed, ")?;
    print_count(rt, c.differed, b" differed, ")?;
    print_count(rt, c.skipped, b" with other lengths\n")
}

// The coefficient of four bits, as the polynomial of one byte begins with it.
fn coefficient(t: u8) -> u16
    requires { t < 16 }
    ensures { result ≡ noise_coefficient t }
{
    let b = [t];
    let p = sampling::ternary(&b);
    p[0]
}

fn print_coefficient(rt: &impl Print, t: u8) -> io::Result<()> {
    print!(rt; "four bits {}", t % 16)?;
    let c = coefficient(t % 16);
    if c == MINUS_ONE {
        rt.write_all(b": -1\n")
    } else {
        rt.write_all(b": ")?;
        print_count(rt, c as u64, b"\n")
    }
}

fn print_coefficients(rt: &impl Print) -> io::Result<()> {
    for t in 0..16 {
        print_coefficient(rt, t)?;
    }
    Ok(())
}

// How many words are taken of a stream of one word.
fn print_taken(rt: &impl Print, low: u8, high: u8) -> io::Result<()> {
    let stream = [low, high];
    print!(rt; "word {}: ", encoding::word(low, high))?;
    print_count(rt, sampling_cases::count(&stream) as u64, b" taken\n")
}

fn main(rt: HostRuntime) -> io::Result<()> {
    print_coefficients(&rt)?;
    print_taken(&rt, 0, 232)?;
    print_taken(&rt, 1, 232)?;
    let mut input = vectors::file_buffer();
    let n = reading::read_full(&mut rt.stdin(), &mut input)?;
    print_counts(&rt, sampling_cases::judge_cases(&input[..n]))
}
