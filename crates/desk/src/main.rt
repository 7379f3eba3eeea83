#![tactic(auto)]
// The referee's desk. Standard input is the secret key (4,357 bytes), the sealed entry (4,133) and 1,536 dummy bytes; one line
// says the number and, where that is 0, the entry in hexadecimal.

use desk_opening::INPUT_LENGTH;
use std::io;

fn main(rt: HostRuntime) -> io::Result<()> {
    // One byte more than the input has, so that longer input is told from input that fits, and an endless one ends.
    let mut input = [0u8; INPUT_LENGTH + 1];
    let n = reading::read_full(&mut rt.stdin(), &mut input)?;
    rt.write_all(desk_line::line_of_first(&input, n).as_bytes())
}
