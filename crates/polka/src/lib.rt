// What a console and a desk link: each public call for C. A slice is a pointer and a length, buffers may have any length, and the answer is
// a code that holds number and location, 0 where the call is done; under any other every output is as it came. The definitions that the
// contracts cite stand in crates calls, batch_calls, conversion_calls, margin_calls and answers.
#![tactic(auto)]

ghost use Rattle.std.specs.Prelude.{◌≡◌, length};
ghost use Rattle.shake.specs.Shake.{shake128, shake256};
ghost use Rattle.answers.specs.Locations.{code};
ghost use Rattle.calls.specs.Calls.{check_answer, keygen_answer, keygen_public, keygen_secret, seeded_keygen_answer, seeded_keygen_public, seeded_keygen_secret};
ghost use Rattle.calls.specs.Calls.{encapsulate_answer, encapsulate_out};
ghost use Rattle.calls.specs.Calls.{decapsulate_answer, decapsulate_out, seal_answer, seal_out, open_answer, open_out};
ghost use Rattle.calls.specs.Promises.{CheckExact, DecapsulateExact, OpenExact};
ghost use Rattle.batch_calls.specs.Calls.{seal_batch_answer, seal_batch_out, open_batch_answer, open_batch_out, open_batch_count};
ghost use Rattle.batch_calls.specs.Promises.{OpenBatchExact};
ghost use Rattle.conversion_calls.specs.Calls.{expand_answer, expand_out, compact_answer, compact_out};
ghost use Rattle.conversion_calls.specs.Promises.{ExpandExact, CompactExact};
ghost use Rattle.margin_calls.specs.Calls.{open_margin_out};
ghost use Rattle.margin_calls.specs.Promises.{OpenMarginExact};

#[unsafe(no_mangle)]
pub extern "C" fn polka_keygen(
    stream: &[u8],
    s: &[u8],
    e: &[u8],
    public: &mut [u8],
    secret: &mut [u8],
) -> u32
    ensures value { result ≡ code (keygen_answer stream.now s.now e.now (length public.old) (length secret.old)) }
    ensures public_after { public.new ≡ keygen_public stream.now s.now e.now public.old secret.old }
    ensures secret_after { secret.new ≡ keygen_secret stream.now s.now e.now public.old secret.old }
{
    let answer = key_calls::keygen(stream, s, e, public, secret);
    answers::code(answer)
}

#[unsafe(no_mangle)]
pub extern "C" fn polka_keygen_from_seed(
    seed: &[u8],
    s: &[u8],
    e: &[u8],
    public: &mut [u8],
    secret: &mut [u8],
) -> u32
    ensures value { result ≡ code (seeded_keygen_answer seed.now s.now e.now (length public.old) (length secret.old)) }
    ensures public_after { public.new ≡ seeded_keygen_public seed.now s.now e.now public.old secret.old }
    ensures secret_after { secret.new ≡ seeded_keygen_secret seed.now s.now e.now public.old secret.old }
{
    let answer = seeded_keygen::keygen_from_seed(seed, s, e, public, secret);
    answers::code(answer)
}

#[unsafe(no_mangle)]
pub extern "C" fn polka_check_secret_key(key: &[u8]) -> u32
    ensures value { result ≡ code (check_answer key.now) }
    ensures check_exact { CheckExact key.now result }
{
    let answer = key_calls::check_secret_key(key);
    answers::code(answer)
}

#[unsafe(no_mangle)]
pub extern "C" fn polka_expand_secret_key(key: &[u8], out: &mut [u8]) -> u32
    ensures value { result ≡ code (expand_answer key.now (length out.old)) }
    ensures out_after { out.new ≡ expand_out key.now out.old }
    ensures expand_exact { ExpandExact key.now out.old result out.new }
{
    let answer = key_conversion::expand_secret_key(key, out);
    answers::code(answer)
}

#[unsafe(no_mangle)]
pub extern "C" fn polka_compact_secret_key(key: &[u8], out: &mut [u8]) -> u32
    ensures value { result ≡ code (compact_answer key.now (length out.old)) }
    ensures out_after { out.new ≡ compact_out key.now out.old }
    ensures compact_exact { CompactExact key.now out.old result out.new }
{
    let answer = key_conversion::compact_secret_key(key, out);
    answers::code(answer)
}

#[unsafe(no_mangle)]
pub extern "C" fn polka_encapsulate(key: &[u8], triple: &[u8], out: &mut [u8]) -> u32
    ensures value { result ≡ code (encapsulate_answer key.now triple.now (length out.old)) }
    ensures out_after { out.new ≡ encapsulate_out key.now triple.now out.old }
{
    let answer = sealing::encapsulate(key, triple, out);
    answers::code(answer)
}

#[unsafe(no_mangle)]
pub extern "C" fn polka_decapsulate(
    key: &[u8],
    encapsulation: &[u8],
    dummy: &[u8],
    out: &mut [u8],
) -> u32
    ensures value { result ≡ code (decapsulate_answer key.now encapsulation.now dummy.now (length out.old)) }
    ensures out_after { out.new ≡ decapsulate_out key.now encapsulation.now dummy.now out.old }
    ensures decapsulate_exact { DecapsulateExact key.now encapsulation.now dummy.now out.old result out.new }
{
    let answer = opening::decapsulate(key, encapsulation, dummy, out);
    answers::code(answer)
}

#[unsafe(no_mangle)]
pub extern "C" fn polka_seal(key: &[u8], noise: &[u8], entry: &[u8], out: &mut [u8]) -> u32
    ensures value { result ≡ code (seal_answer key.now noise.now entry.now (length out.old)) }
    ensures out_after { out.new ≡ seal_out key.now noise.now entry.now out.old }
{
    let answer = sealing::seal(key, noise, entry, out);
    answers::code(answer)
}

#[unsafe(no_mangle)]
pub extern "C" fn polka_open(key: &[u8], sealed: &[u8], noise: &[u8], out: &mut [u8]) -> u32
    ensures value { result ≡ code (open_answer key.now sealed.now noise.now (length out.old)) }
    ensures out_after { out.new ≡ open_out key.now sealed.now noise.now out.old }
    ensures open_exact { OpenExact key.now sealed.now noise.now out.old result out.new }
{
    let answer = opening::open(key, sealed, noise, out);
    answers::code(answer)
}

#[unsafe(no_mangle)]
pub extern "C" fn polka_seal_batch(key: &[u8], noise: &[u8], blocks: &[u8], out: &mut [u8]) -> u32
    ensures value { result ≡ code (seal_batch_answer key.now noise.now blocks.now (length out.old)) }
    ensures out_after { out.new ≡ seal_batch_out key.now noise.now blocks.now out.old }
{
    let answer = batch_sealing::seal_batch(key, noise, blocks, out);
    answers::code(answer)
}

// The count of entries is written under 0, as the entries are.
#[unsafe(no_mangle)]
pub extern "C" fn polka_open_batch(
    key: &[u8],
    batch: &[u8],
    noise: &[u8],
    out: &mut [u8],
    count: &mut u32,
) -> u32
    ensures value { result ≡ code (open_batch_answer key.now batch.now noise.now (length out.old)) }
    ensures out_after { out.new ≡ open_batch_out key.now batch.now noise.now out.old }
    ensures count_after { count.new ≡ open_batch_count key.now batch.now noise.now (length out.old) count.old }
    ensures open_batch_exact { OpenBatchExact key.now batch.now noise.now out.old count.old result out.new count.new }
{
    match batch_opening::open_batch(key, batch, noise, out) {
        Ok(m) => {
            *count = m;
            0
        }
        Err(refusal) => answers::code(Err(refusal)),
    }
}

// The margin belongs to the desk's secret side: it tells of the secret key and of the triple, and it alone varies with the dummy.
#[unsafe(no_mangle)]
pub extern "C" fn polka_open_with_margin(
    key: &[u8],
    sealed: &[u8],
    noise: &[u8],
    out: &mut [u8],
    margin: &mut u32,
) -> u32
    ensures value { result ≡ code (open_answer key.now sealed.now noise.now (length out.old)) }
    ensures out_after { out.new ≡ open_out key.now sealed.now noise.now out.old }
    ensures margin_after { margin.new ≡ open_margin_out key.now sealed.now noise.now (length out.old) margin.old }
    ensures open_margin_exact { OpenMarginExact key.now sealed.now noise.now out.old margin.old result out.new margin.new }
{
    match margin_opening::open_with_margin(key, sealed, noise, out) {
        Ok(largest) => {
            *margin = largest;
            0
        }
        Err(refusal) => answers::code(Err(refusal)),
    }
}

// SHAKE128 of `input`, as many bytes as `out` has. Both may have any length.
#[unsafe(no_mangle)]
pub extern "C" fn polka_shake128(input: &[u8], out: &mut [u8])
    ensures { out.new ≡ shake128 input.now (length out.old) }
{
    shake::shake128(input, out);
}

// SHAKE256 likewise.
#[unsafe(no_mangle)]
pub extern "C" fn polka_shake256(input: &[u8], out: &mut [u8])
    ensures { out.new ≡ shake256 input.now (length out.old) }
{
    shake::shake256(input, out);
}
