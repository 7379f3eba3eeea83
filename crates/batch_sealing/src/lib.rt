// The call of a console that seals a batch (document 02, No. 4), which is lent a public key of either kind and whole entries. Buffers may
// have any length; under any answer but Done the output is as it came.
#![tactic(auto)]

ghost use Rattle.std.specs.Prelude.{◌≡◌, ◌%◌, length};
ghost use Rattle.scheme.specs.Answers as Struct;
ghost use Rattle.batch_records.specs.Batches.{batch_length};
ghost use Rattle.batch_calls.specs.Calls.{entries, seal_batch_answer, protected_batch, seal_batch_out};

use answers::{Answer, Refusal};
use batch_records::{BATCH_OVERHEAD, BODY};
use keys::TRIPLE_NOISE_LENGTH;
use octets::BLOCK_LENGTH;
use sealing::Prepared;

// Writes a batch of whole entries. The body is worked off where it stands in the record.
fn write_batch(p: Prepared, blocks: &[u8], out: &mut [u8])
    requires { (length blocks.now % 16 ≡ 0) × (length out.old ≡ batch_length (entries blocks.now)) }
    ensures { out.new ≡ protected_batch p.c.c1 p.c.c2 (Struct.triple_of p.triple) blocks.now }
{
    let size = blocks.len();
    let l = batch_records::count_block(size / BLOCK_LENGTH);
    batch_records::write_front(p.c, l, out);
    let tag = derivation::protect(p.triple, &l, blocks, &mut out[BODY..BODY + size]);
    octets::write_block(tag, &mut out[BODY + size..BATCH_OVERHEAD + size]);
}

// (c1, c2) = (a × r + e1, b × r + e2), by the triple of TRIPLE_NOISE_LENGTH bytes, then body = entries xor keystream and, of its blocks B1 to Bm,
// tag = K1^(m+1) × L + K1^m × B1 + .. + K1 × Bm + K2. BLOCK_LENGTH × m bytes give BATCH_OVERHEAD + BLOCK_LENGTH × m.
pub fn seal_batch(key: &[u8], noise: &[u8], blocks: &[u8], out: &mut [u8]) -> Answer
    ensures value { result ≡ seal_batch_answer key.now noise.now blocks.now (length out.old) }
    ensures out_after { out.new ≡ seal_batch_out key.now noise.now blocks.now out.old }
{
    let size = blocks.len();
    if size % BLOCK_LENGTH != 0 {
        return Err(Refusal::WrongLength);
    }
    if !batch_records::is_count(size / BLOCK_LENGTH) {
        return Err(Refusal::WrongCount);
    }
    let fits = public_keys::is_public_length(key.len())
        & (noise.len() == TRIPLE_NOISE_LENGTH)
        & (out.len() == BATCH_OVERHEAD + BLOCK_LENGTH * (size / BLOCK_LENGTH));
    if !fits {
        return Err(Refusal::WrongLength);
    }
    let p = sealing::encapsulate_noise(key, noise)?;
    write_batch(p, blocks, out);
    Ok(())
}
