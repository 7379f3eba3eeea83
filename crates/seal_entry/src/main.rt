#![tactic(auto)]
// Seals an entry. Standard input is a public key of either kind (4,101 bytes, or 2,085 with a seed), 1,536 random bytes of noise and the
// entry (16), so 5,653 bytes or 3,637. Standard output is the sealed entry (4,133 bytes). A refusal writes its number to standard error and
// nothing else, and its exit status is 0 too: another comes where reading or writing fails.

use records::SEALED_ENTRY_LENGTH;
use seal_entry_output::INPUT_LENGTH;
use std::io;

fn main(rt: HostRuntime) -> io::Result<()> {
    // One byte more than the longer input has, so that longer input is told from input that fits, and an endless one ends.
    let mut input = [0u8; INPUT_LENGTH + 1];
    let mut sealed = [0u8; SEALED_ENTRY_LENGTH];
    let n = reading::read_full(&mut rt.stdin(), &mut input)?;
    let printed = seal_entry_output::seal_entry(&input[..n], &mut sealed);
    rt.write_all(&sealed[..printed.sealed])?;
    rt.stderr().write_all(printed.error.as_bytes())
}
