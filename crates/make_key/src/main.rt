#![tactic(auto)]
// Makes a key. Standard input is random bytes: a stream (2,688) or a seed (32), the noise of s (512) and the noise of e (512), so 3,712
// bytes or 1,056. Standard output is the public key (4,101 bytes, or 2,085 from a seed) and, behind it, the secret key (4,357). A refusal
// writes its number to standard error and nothing else, and its exit status is 0 too: another comes where reading or writing fails.

use make_key_output::INPUT_LENGTH;
use records::{PUBLIC_KEY_LENGTH, SECRET_KEY_LENGTH};
use std::io;

fn main(rt: HostRuntime) -> io::Result<()> {
    // One byte more than the longer input has, so that longer input is told from input that fits, and an endless one ends.
    let mut input = [0u8; INPUT_LENGTH + 1];
    let mut public = [0u8; PUBLIC_KEY_LENGTH];
    let mut secret = [0u8; SECRET_KEY_LENGTH];
    let n = reading::read_full(&mut rt.stdin(), &mut input)?;
    let printed = make_key_output::make_key(&input[..n], &mut public, &mut secret);
    rt.write_all(&public[..printed.public])?;
    rt.write_all(&secret[..printed.secret])?;
    rt.stderr().write_all(printed.error.as_bytes())
}
