// The call of a desk that opens a batch (document 02, No. 4), which is lent a secret key. Buffers may have any length; under a refusal the
// output is as it came, and else what stands behind the entries.
#![tactic(auto)]

ghost use Rattle.std.specs.Prelude.{◌≡◌, ◌≤◌, length};
ghost use Rattle.answers.specs.Answers.{number, and_then, given_or};
ghost use Rattle.keys.specs.Keys.{triple_noise_length};
ghost use Rattle.batch_records.specs.Batches.{batch_overhead, entries_length, count_of};
ghost use Rattle.batch_calls.specs.Calls.{open_batch_answer, open_batch_out};
ghost use Rattle.batch_calls.specs.Promises.{OpenBatchExact};
ghost use Rattle.batch_opening.specs.Parts.{entries_answer, shown_entries};

use answers::Refusal;
use batch_records::{BATCH_OVERHEAD, BATCH_VERSION, BODY, ENTRIES_LENGTH};
use encoding::HEADER_LENGTH;
use keys::TRIPLE_NOISE_LENGTH;

// Of any key, and a batch, noise and an output that fit. A batch whose length does not fit its count is refused as it is read, and opened without a
// body.
fn open_records(key: &[u8], batch: &[u8], noise: &[u8], out: &mut [u8]) -> Result<u32, Refusal>
    requires { (batch_overhead ≤ length batch.now) × (length noise.now ≡ triple_noise_length) × (length out.old ≡ entries_length) }
    ensures value { result ≡ and_then (entries_answer key.now batch.now noise.now) (Ok (count_of batch.now)) }
    ensures out_after { out.new ≡ shown_entries key.now batch.now noise.now out.old }
{
    let m = batch_records::count(batch);
    let between = batch_records::count_answer(m, batch.len());
    let size = batch_records::body_length(m, batch.len());
    let l = batch_records::count_block(m);
    let opened = opening::open_sealed(
        key,
        batch,
        BATCH_VERSION,
        between,
        noise,
        &l,
        &batch[BODY..BODY + size],
        &batch[BODY + size..BATCH_OVERHEAD + size],
        &mut out[0..size],
    )?;
    let answer = opened.answer;
    answer?;
    Ok(m as u32)
}

// entries = body xor keystream where, of the blocks B1 to Bm of the body, tag = K1^(m+1) × L + K1^m × B1 + .. + K1 × Bm + K2, of what the ternary
// triple of (c1, c2) derives, whatever the dummy. BATCH_OVERHEAD + BLOCK_LENGTH × m bytes give the first BLOCK_LENGTH × m of ENTRIES_LENGTH, and m.
pub fn open_batch(key: &[u8], batch: &[u8], noise: &[u8], out: &mut [u8]) -> Result<u32, Refusal>
    ensures value { result ≡ and_then (open_batch_answer key.now batch.now noise.now (length out.old)) (Ok (count_of batch.now)) }
    ensures out_after { out.new ≡ open_batch_out key.now batch.now noise.now out.old }
    ensures open_batch_exact { OpenBatchExact key.now batch.now noise.now out.old 0 (number result) out.new (given_or 0 result) }
{
    let fits = (HEADER_LENGTH <= key.len())
        & (BATCH_OVERHEAD <= batch.len())
        & (noise.len() == TRIPLE_NOISE_LENGTH)
        & (out.len() == ENTRIES_LENGTH);
    if !fits {
        return Err(Refusal::WrongLength);
    }
    open_records(key, batch, noise, out)
}
