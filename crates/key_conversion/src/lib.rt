// The calls that convert a secret key from one version to the other (document 02, No. 5). Buffers may have any length; under any answer but
// Done the output is as it came.
#![tactic(auto)]

ghost use Rattle.std.specs.Prelude.{◌≡◌, ◌≤◌, length};
ghost use Rattle.ntt.specs.Factors.{forward_factors, backward_factors};
ghost use Rattle.answers.specs.Answers.{number, and_then};
ghost use Rattle.records.specs.Layout.{secret_key_length, expanded_key_length};
ghost use Rattle.records.specs.Records.{compact_bytes, expanded_bytes};
ghost use Rattle.secret_keys.specs.SecretKeys.{elements_of, version_answer};
ghost use Rattle.secret_keys.specs.Read.{spectra_of};
ghost use Rattle.conversion_calls.specs.Calls.{expand_answer, expand_out, compact_answer, compact_out};
ghost use Rattle.conversion_calls.specs.Promises.{ExpandExact, CompactExact};

use answers::{Answer, Refusal};
use encoding::HEADER_LENGTH;
use ntt::{Element, FACTORS};
use records::{
    EXPANDED_KEY_LENGTH, EXPANDED_KEY_VERSION, FIRST, INVERSE, SECRET_KEY_LENGTH, SECRET_KEY_MARK,
    SECRET_KEY_VERSION,
};
use scheme::SecretKey;

// ---- a key of one version

// .. whose mark and version are checked first: any other version is 3.
fn read_version(
    key: &[u8],
    version: u16,
    forward: &[u16],
    backward: &[u16],
) -> Result<SecretKey, Refusal>
    requires { (forward.now ≡ forward_factors) × (backward.now ≡ backward_factors) }
    ensures { result ≡ and_then (version_answer version key.now) (Ok (spectra_of (elements_of key.now))) }
{
    records::check_header(key, SECRET_KEY_MARK, version)?;
    secret_keys::read_secret_key(key, forward, backward)
}

// ---- expand_secret_key

// The a, b and s of a key stay as they stand.
fn write_expanded(key: &[u8], inverse: Element, out: &mut [u8])
    requires { (secret_key_length ≤ length key.now) × (length out.old ≡ expanded_key_length) }
    ensures { out.new ≡ expanded_bytes key.now inverse }
{
    encoding::encode_header(SECRET_KEY_MARK, EXPANDED_KEY_VERSION, &mut out[0..FIRST]);
    octets::copy(&key[FIRST..INVERSE], &mut out[FIRST..INVERSE]);
    encoding::encode_element(inverse, &mut out[INVERSE..EXPANDED_KEY_LENGTH]);
}

// Version 1 to version 2. SECRET_KEY_LENGTH bytes give EXPANDED_KEY_LENGTH.
pub fn expand_secret_key(key: &[u8], out: &mut [u8]) -> Answer
    ensures value { result ≡ expand_answer key.now (length out.old) }
    ensures out_after { out.new ≡ expand_out key.now out.old }
    ensures expand_exact { ExpandExact key.now out.old (number result) out.new }
{
    let fits = (HEADER_LENGTH <= key.len()) & (out.len() == EXPANDED_KEY_LENGTH);
    if !fits {
        return Err(Refusal::WrongLength);
    }
    let mut forward = [0u16; FACTORS];
    let mut backward = [0u16; FACTORS];
    ntt::forward_factors(&mut forward);
    ntt::backward_factors(&mut backward);
    let read = read_version(key, SECRET_KEY_VERSION, &forward, &backward)?;
    write_expanded(key, ntt::backward(read.inverse, &backward), out);
    Ok(())
}

// ---- compact_secret_key

fn write_compact(key: &[u8], out: &mut [u8])
    requires { (secret_key_length ≤ length key.now) × (length out.old ≡ secret_key_length) }
    ensures { out.new ≡ compact_bytes key.now }
{
    encoding::encode_header(SECRET_KEY_MARK, SECRET_KEY_VERSION, &mut out[0..FIRST]);
    octets::copy(
        &key[FIRST..SECRET_KEY_LENGTH],
        &mut out[FIRST..SECRET_KEY_LENGTH],
    );
}

// Version 2 to version 1. EXPANDED_KEY_LENGTH bytes give SECRET_KEY_LENGTH.
pub fn compact_secret_key(key: &[u8], out: &mut [u8]) -> Answer
    ensures value { result ≡ compact_answer key.now (length out.old) }
    ensures out_after { out.new ≡ compact_out key.now out.old }
    ensures compact_exact { CompactExact key.now out.old (number result) out.new }
{
    let fits = (HEADER_LENGTH <= key.len()) & (out.len() == SECRET_KEY_LENGTH);
    if !fits {
        return Err(Refusal::WrongLength);
    }
    let mut forward = [0u16; FACTORS];
    let mut backward = [0u16; FACTORS];
    ntt::forward_factors(&mut forward);
    ntt::backward_factors(&mut backward);
    read_version(key, EXPANDED_KEY_VERSION, &forward, &backward)?;
    write_compact(key, out);
    Ok(())
}
