// The cases of products, inverses and remainders of the ring: when one agrees, and the report on a text of them.
#![tactic(auto)]

ghost use Rattle.std.specs.Prelude.{◌≡◌};
ghost use Rattle.ntt.specs.Factors.{forward_factors, backward_factors};
ghost use Rattle.encoding.specs.Words.{element_of};
ghost use Rattle.vectors.specs.Fields.{field};
ghost use Rattle.vectors.specs.Answers.{is_same, report};
ghost use Rattle.ring_cases.specs.Cases.{inverse_size, field_count, is_case, product_agrees, inverse_number, inverse_agrees, agrees, verdict};

use encoding::ELEMENT_LENGTH;
use ntt::{DEGREE, Element, FACTORS};
use vectors::{Report, Verdict};

// What the cases of a file are of. The program names it for each file, and definitions are by it: closures would be no plainer.
#[derive(Clone, Copy)]
pub enum Kind {
    Products,
    Inverses,
    Remainders,
}

// ---- elements

// The element in field i.
fn element(text: &[u8], i: usize) -> Element
    ensures { result ≡ element_of (field i text.now) }
{
    encoding::decode_element(vectors::field(text, i))
}

fn same_elements(a: Element, b: Element) -> bool
    ensures { result ≡ is_same a b }
{
    a == b
}

// ---- when a case agrees. The tables of factors are lent, so that they are made once a file.

fn product_agrees(text: &[u8], forward: &[u16], backward: &[u16]) -> bool
    requires { (forward.now ≡ forward_factors) × (backward.now ≡ backward_factors) }
    ensures { result ≡ product_agrees text.now }
{
    let f = element(text, 0);
    let g = element(text, 1);
    let expected = element(text, 4);
    let found = ring::product_with(f, g, forward, backward);
    (vectors::number(text, 2) == 0) & same_elements(found, expected)
}

// The number that a case tells, by whether there is an inverse: that of document 01, since files of cases hold numbers.
fn inverse_number(exists: bool) -> u32
    ensures { result ≡ inverse_number exists }
{
    if exists { 0 } else { 6 }
}

fn inverse_agrees(text: &[u8], forward: &[u16], backward: &[u16]) -> bool
    requires { (forward.now ≡ forward_factors) × (backward.now ≡ backward_factors) }
    ensures { result ≡ inverse_agrees text.now }
{
    let found = ring::inverse_with(element(text, 0), forward, backward);
    (vectors::number(text, 1) == inverse_number(found.is_some()))
        & same_elements(found.unwrap_or([0u16; DEGREE]), element(text, 3))
}

fn agrees(kind: Kind, text: &[u8], forward: &[u16], backward: &[u16]) -> bool
    requires { (forward.now ≡ forward_factors) × (backward.now ≡ backward_factors) }
    ensures { result ≡ agrees kind text.now }
{
    match kind {
        Kind::Products => product_agrees(text, forward, backward),
        Kind::Inverses => inverse_agrees(text, forward, backward),
        Kind::Remainders => remainder_cases::remainder_agrees(text),
    }
}

// ---- cases

// The size of an inverse, by whether there is one.
fn inverse_size(exists: bool) -> usize
    ensures { result ≡ inverse_size exists }
{
    if exists { ELEMENT_LENGTH } else { 0 }
}

fn is_case(kind: Kind, text: &[u8]) -> bool
    ensures { result ≡ is_case kind text.now }
{
    match kind {
        Kind::Products => {
            let sizes = [ELEMENT_LENGTH, ELEMENT_LENGTH, 4, 0, ELEMENT_LENGTH];
            vectors::has_sizes(text, &sizes)
        }
        Kind::Inverses => {
            let size = inverse_size(vectors::number(text, 1) == 0);
            let sizes = [ELEMENT_LENGTH, 4, 0, size];
            vectors::has_sizes(text, &sizes)
        }
        Kind::Remainders => {
            let sizes = [4usize, 4, 0, 4, 4, 4];
            vectors::has_sizes(text, &sizes)
        }
    }
}

fn judge(kind: Kind, text: &[u8], forward: &[u16], backward: &[u16]) -> Verdict
    requires { (forward.now ≡ forward_factors) × (backward.now ≡ backward_factors) }
    ensures { result ≡ verdict kind text.now }
{
    vectors::judged(is_case(kind, text), agrees(kind, text, forward, backward))
}

fn field_count(kind: Kind) -> usize
    ensures { result ≡ field_count kind }
{
    match kind {
        Kind::Products => 5,
        Kind::Inverses => 4,
        Kind::Remainders => 6,
    }
}

pub fn judge_file(kind: Kind, text: &[u8]) -> Report
    ensures { result ≡ report (verdict kind) (field_count kind) text.now }
{
    let mut forward = [0u16; FACTORS];
    let mut backward = [0u16; FACTORS];
    ntt::forward_factors(&mut forward);
    ntt::backward_factors(&mut backward);
    vectors::judge_cases(text, field_count(kind), |case| {
        judge(kind, case, &forward, &backward)
    })
}
