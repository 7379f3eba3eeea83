// Openings of what was read: a secret key, from whatever source, an encapsulation, bare or of a sealed entry or a batch, and a dummy.
#![tactic(auto)]

ghost use Rattle.std.specs.Prelude.{◌≡◌, ◌++◌, ◌%◌, length};
ghost use Rattle.ntt.specs.Factors.{forward_factors, backward_factors};
ghost use Rattle.answers.specs.Answers.{and_then};
ghost use Rattle.calls.specs.Calls.{outcome_answer};
ghost use Rattle.recovery.specs.Outcomes.{answered, with_parts, outcome_by, recovered_by};

use answers::{Answer, Refusal};
use ntt::DEGREE;
use octets::BLOCK_LENGTH;
use ring::Quotients;
use scheme::{Encapsulation, SecretKey, Triple};

// ---- an encapsulation

// By a key, an encapsulation and a dummy that were read.
pub fn find_triple(
    key: SecretKey,
    c: Encapsulation,
    dummy: Triple,
    forward: &[u16],
    backward: &[u16],
) -> Result<Triple, Refusal>
    requires { (forward.now ≡ forward_factors) × (backward.now ≡ backward_factors) }
    ensures { result ≡ and_then (outcome_answer (outcome_by key dummy c)) (Ok (with_parts (answered (outcome_by key dummy c)))) }
{
    scheme::decapsulate(key, dummy, c, forward, backward)
        .triple
        .ok_or(Refusal::DecapsulationFailure)
}

// ---- the tag of a sealed entry or a batch

// What is answered, 9 and 10 too; K0, which shows the entry where that is done; the quotients w of step 3. They stand beside a refusal too, so this
// is no Result: w is promised whatever the dummy and the tag. Where no triple was found, K0 is that of zeros.
#[derive(Clone, Copy)]
pub struct Recovered {
    pub answer: Answer,
    pub k0: [u8; BLOCK_LENGTH],
    pub quotients: Quotients,
}

// By a key, an encapsulation and a dummy that were read; the tag is that of the blocks in `front`, of which a single entry has none, and of the
// body. Nothing of the entry is shown here.
pub fn recover(
    key: SecretKey,
    c: Encapsulation,
    dummy: Triple,
    front: &[u8],
    body: &[u8],
    tag: [u8; BLOCK_LENGTH],
    forward: &[u16],
    backward: &[u16],
) -> Recovered
    requires { (length front.now % 16 ≡ 0) × (forward.now ≡ forward_factors) × (backward.now ≡ backward_factors) }
    ensures { result ≡ recovered_by key dummy c (front.now ++ body.now) tag }
{
    let d = scheme::decapsulate(key, dummy, c, forward, backward);
    let found = answers::unless(d.triple.is_some(), Refusal::DecapsulationFailure);
    let zeros = [0u16; DEGREE];
    let nothing = Triple {
        r: zeros,
        e1: zeros,
        e2: zeros,
    };
    let t = d.triple.unwrap_or(nothing);
    let v = derivation::verify(t, front, body, tag);
    let genuine = answers::unless(v.genuine, Refusal::TagMismatch);
    let answer = found.and(genuine);
    let k0 = v.k0;
    let quotients = d.quotients;
    Recovered {
        answer,
        k0,
        quotients,
    }
}
