// What the desk program answers, and the entry that it finds in an input of the right length. Its key is of version 1.
#![tactic(auto)]

ghost use Rattle.std.specs.Prelude.{◌≡◌};
ghost use Rattle.lists.specs.Table.{zeros};
ghost use Rattle.answers.specs.Answers.{and_then};
ghost use Rattle.records.specs.Layout.{block_length};
ghost use Rattle.calls.specs.Calls.{open_out};
ghost use Rattle.desk_opening.specs.Input.{parts_answer, desk_answer, desk_entry};

use answers::{Answer, Refusal};
use keys::TRIPLE_NOISE_LENGTH;
use octets::BLOCK_LENGTH;
use records::{SEALED_ENTRY_LENGTH, SECRET_KEY_LENGTH, SECRET_KEY_MARK, SECRET_KEY_VERSION};

// Where the sealed entry and the dummy's noise start, behind the secret key, and where the noise ends.
const SEALED: usize = SECRET_KEY_LENGTH;

const DUMMY: usize = SEALED + SEALED_ENTRY_LENGTH;

pub const INPUT_LENGTH: usize = DUMMY + TRIPLE_NOISE_LENGTH;

// Mark and version come first: opening takes other versions too.
fn open_parts(key: &[u8], sealed: &[u8], dummy: &[u8]) -> Result<[u8; BLOCK_LENGTH], Refusal>
    ensures { result ≡ and_then (parts_answer key.now sealed.now dummy.now) (Ok (open_out key.now sealed.now dummy.now (zeros block_length))) }
{
    records::check_header(key, SECRET_KEY_MARK, SECRET_KEY_VERSION)?;
    let mut entry = [0u8; BLOCK_LENGTH];
    opening::open(key, sealed, dummy, &mut entry)?;
    Ok(entry)
}

// The entry of an input of any length.
pub fn open_input(input: &[u8]) -> Result<[u8; BLOCK_LENGTH], Refusal>
    ensures { result ≡ and_then (desk_answer input.now) (Ok (desk_entry input.now)) }
{
    if input.len() != INPUT_LENGTH {
        return Err(Refusal::WrongLength);
    }
    open_parts(
        &input[0..SEALED],
        &input[SEALED..DUMMY],
        &input[DUMMY..INPUT_LENGTH],
    )
}

// What is answered to it.
pub fn answer(input: &[u8]) -> Answer
    ensures { result ≡ desk_answer input.now }
{
    open_input(input)?;
    Ok(())
}
