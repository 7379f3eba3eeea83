// The a of a seeded public key: document 02, No. 2. A seed may have any length.
#![tactic(auto)]

ghost use Rattle.std.specs.Prelude.{◌≡◌, length};
ghost use Rattle.sampling.specs.Stream.{taken};
ghost use Rattle.seeds.specs.Seeds.{seed_stream, seed_element};

use sampling::{STREAM_LENGTH, UniformSample};

// The stream of a seed.
pub fn stream(seed: &[u8]) -> [u8; STREAM_LENGTH]
    ensures { result ≡ seed_stream seed.now }
{
    let mut out = [0u8; STREAM_LENGTH];
    shake::shake128(seed, &mut out);
    out
}

// How many words of the stream were taken, and a.
pub fn element(seed: &[u8]) -> UniformSample
    ensures { (result.count ≡ length (taken (seed_stream seed.now))) × (result.value ≡ seed_element seed.now) }
{
    let bytes = stream(seed);
    let words = &bytes[0..];
    sampling::uniform(words)
}
