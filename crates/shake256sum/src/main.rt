#![tactic(auto)]
// Prints the first 32 bytes of SHAKE256 of standard input in hexadecimal, as `openssl dgst -shake256` does. The input is held in
// memory whole: it has at most 1,048,576 bytes.
ghost use Rattle.std.specs.Prelude.{◌≡◌, [], IfOk, IfErr};
ghost use Rattle.lists.specs.Table.{zeros};
ghost use Rattle.shake256sum.specs.Line.{line_of, standard_output, standard_error};

use std::io;

const MOST: usize = 1048576;

// The line of a message.
fn line_of(message: &[u8]) -> [u8; 65]
    ensures { result ≡ line_of message.now }
{
    let mut output = [0u8; 32];
    shake::shake256(message, &mut output);
    let mut line = [0u8; 65];
    hexadecimal::encode(&output, &mut line);
    line[64] = b'\n';
    line
}

// What the program prints for an input of any length: a line to standard output, or why there is none to standard error.
fn shake256sum(input: &[u8]) -> Result<[u8; 65], &'static [u8]>
    ensures line { IfOk result (λ line. (line ≡ standard_output input.now) × (standard_error input.now ≡ [])) }
    ensures error { IfErr result (λ message. (message.now ≡ standard_error input.now) × (standard_output input.now ≡ [])) }
{
    if input.len() > MOST {
        return Err(b"shake256sum: the input is longer than 1048576 bytes\n");
    }
    Ok(line_of(input))
}

// ---- reading and writing

// One byte more than the input may have, so that longer input is told from input that fits. A function of its own: where `main` has so long
// a literal itself, its check ends without a verdict, for want of more than 1 GiB of stack.
fn input_buffer() -> [u8; 1048577]
    ensures { result ≡ zeros 1048577 }
{
    [0; 1048577]
}

fn main(rt: HostRuntime) -> io::Result<()> {
    let mut input = input_buffer();
    let n = reading::read_full(&mut rt.stdin(), &mut input)?;
    match shake256sum(&input[..n]) {
        Ok(line) => rt.write_all(&line),
        Err(message) => rt.stderr().write_all(message),
    }
}
