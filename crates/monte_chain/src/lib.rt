// The functions that NIST's response files test, and the chain of their Monte files.
#![tactic(auto)]

ghost use Rattle.std.specs.Prelude.{◌≡◌, ◌+◌, ◌*◌, ◌≤◌, length};
ghost use Rattle.monte_chain.specs.Monte.{output_of, least_size, greatest_size, output_size};
ghost use Rattle.monte_chain.specs.Monte.{message_of, chain_of, turned, turns as Monte·turns};

// The table of files in the program names the function, and definitions are by it: a closure would be no plainer.
#[derive(Clone, Copy)]
pub enum Function {
    Shake128,
    Shake256,
}

// Fills the output from a message.
pub fn put_output(function: Function, message: &[u8], output: &mut [u8])
    ensures { output.new ≡ output_of function message.now (length output.old) }
{
    match function {
        Function::Shake128 => shake::shake128(message, output),
        Function::Shake256 => shake::shake256(message, output),
    }
}

// The least number of bytes that a turn of the chain puts out.
pub fn least_size(function: Function) -> usize
    ensures { result ≡ least_size function }
{
    match function {
        Function::Shake128 => 16,
        Function::Shake256 => 2,
    }
}

// The greatest number of bytes that a turn of the chain puts out.
pub fn greatest_size(function: Function) -> usize
    ensures { result ≡ greatest_size function }
{
    match function {
        Function::Shake128 => 140,
        Function::Shake256 => 250,
    }
}

// What the next turn starts from: its message, and the number that its output's length is made of.
#[derive(Clone, Copy)]
pub struct Chain {
    pub message: [u8; 16],
    pub extra: usize,
}

pub fn output_size(function: Function, extra: usize) -> usize
    ensures { result ≡ output_size function extra }
{
    let least = least_size(function);
    let sizes = greatest_size(function) - least + 1;
    least + extra % sizes
}

// The first 16 bytes of an output, filled with zeros.
fn next_message(output: &[u8]) -> [u8; 16]
    ensures { result ≡ message_of output.now }
{
    let mut message = [0u8; 16];
    let n = output.len().min(16);
    message[..n].copy_from_slice(&output[..n]);
    message
}

// What the turn after an output starts from.
fn chain_of(output: &[u8]) -> Chain
    requires { 2 ≤ length output.now }
    ensures { result ≡ chain_of output.now }
{
    let n = output.len();
    Chain {
        message: next_message(output),
        extra: u16::from_be_bytes([output[n - 2], output[n - 1]]) as usize,
    }
}

// One turn of the chain. The buffer has room for the greatest output of each function.
fn turn(function: Function, c: Chain) -> Chain
    ensures { result ≡ turned function c }
{
    let n = output_size(function, c.extra);
    let message = c.message;
    let mut output = [0u8; 250];
    put_output(function, &message, &mut output[..n]);
    chain_of(&output[..n])
}

pub fn many_turns(function: Function, c: Chain, n: usize) -> Chain
    ensures { result ≡ Monte·turns function n c }
{
    let mut c = c;
    for _ in 0..n {
        c = turn(function, c);
    }
    c
}
