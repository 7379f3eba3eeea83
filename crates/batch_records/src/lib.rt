// Batches as bytes (document 02, No. 4): their layout, their count and what it is answered by, and the front, written.
// The calls test first that a batch holds its overhead, or has the length of its count.
#![tactic(auto)]

ghost use Rattle.std.specs.Prelude.{◌≡◌, ◌++◌, ◌+◌, ◌≤◌, length, take, drop};
ghost use Rattle.records.specs.Layout.{sealed_entry_mark};
ghost use Rattle.records.specs.Records.{record_bytes};
ghost use Rattle.batch_records.specs.Batches.{body_place, batch_overhead, entries_length, count_of, count_block, is_count};
ghost use Rattle.batch_records.specs.Read.{count_answer, body_length};

use answers::{Answer, Refusal};
use octets::BLOCK_LENGTH;
use records::{SEALED_ENTRY_MARK, THIRD};
use scheme::Encapsulation;

// ---- layout

// "PLG", version 2.
pub const BATCH_VERSION: u16 = 2;

// Where the count and the body start, and how many bytes stand beside the body.
pub const COUNT: usize = THIRD;

pub const BODY: usize = COUNT + 2;

pub const BATCH_OVERHEAD: usize = BODY + BLOCK_LENGTH;

pub const MOST_ENTRIES: usize = 255;

// The entries of the largest batch.
pub const ENTRIES_LENGTH: usize = BLOCK_LENGTH * MOST_ENTRIES;

// ---- the count

// Whether a batch may hold m entries.
pub fn is_count(m: usize) -> bool
    ensures { result ≡ is_count m }
{
    (1 <= m) & (m <= MOST_ENTRIES)
}

// L, the block that stands before the body under the tag; the count of a record is its first two bytes.
pub fn count_block(m: usize) -> [u8; BLOCK_LENGTH]
    ensures { result ≡ count_block m }
{
    let mut l = [0u8; BLOCK_LENGTH];
    l[..2].copy_from_slice(&m.to_le_bytes()[..2]);
    l
}

// The count of a batch.
pub fn count(bytes: &[u8]) -> usize
    ensures { (result ≡ count_of bytes.now) × (result ≤ 65535) }
{
    let low = octets::byte_at(bytes, COUNT);
    let high = octets::byte_at(bytes, COUNT + 1);
    encoding::word(low, high) as usize
}

// ---- reading

// 12, then 1, by the count and the length of a batch: what is answered between its header and its words.
pub fn count_answer(m: usize, size: usize) -> Answer
    requires { m ≤ 65535 }
    ensures { result ≡ count_answer m size }
{
    answers::unless(is_count(m), Refusal::WrongCount)?;
    answers::unless(
        size == BATCH_OVERHEAD + BLOCK_LENGTH * m,
        Refusal::WrongLength,
    )
}

// How many bytes the body of a batch has, 0 where its length does not fit the count: then the body is empty, and the
// call refuses by `count_answer`, in its turn. It lies within the batch.
pub fn body_length(m: usize, size: usize) -> usize
    requires { (m ≤ 65535) × (batch_overhead ≤ size) }
    ensures value { result ≡ body_length m size }
    ensures upper_bound { (result ≤ entries_length) × (batch_overhead + result ≤ size) }
{
    if is_count(m) & (size == BATCH_OVERHEAD + BLOCK_LENGTH * m) {
        return BLOCK_LENGTH * m;
    }
    0
}

// ---- writing

// What stands before the body, the count from its block L; the rest of the buffer stays as it came.
pub fn write_front(c: Encapsulation, l: [u8; BLOCK_LENGTH], out: &mut [u8])
    requires { body_place ≤ length out.old }
    ensures { out.new ≡ (record_bytes sealed_entry_mark 2 c.c1 c.c2 ++ take 2 l) ++ drop body_place out.old }
{
    records::write_record(SEALED_ENTRY_MARK, BATCH_VERSION, c.c1, c.c2, out);
    octets::copy(&l[0..2], &mut out[COUNT..BODY]);
}
