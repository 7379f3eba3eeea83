#![tactic(auto)]
// Works through a file of example products of the tag's field and prints a line: how many cases agreed and how many differed, or what is
// wrong with the file.
ghost use Rattle.std.specs.Prelude.{◌≡◌, true};
ghost use Rattle.vectors.specs.Answers.{report};
ghost use Rattle.gf128_vectors.specs.Cases.{is_case, agrees, verdict};

use std::io;
use vectors::{Report, Verdict};

fn agrees(text: &[u8]) -> bool
    requires { is_case text.now ≡ true }
    ensures { result ≡ agrees text.now }
{
    let x = octets::read_block(vectors::field(text, 0));
    let y = octets::read_block(vectors::field(text, 1));
    let found = gf128::product(x, y);
    (vectors::number(text, 2) == 0) & vectors::same(&found, vectors::field(text, 4))
}

fn judge(text: &[u8]) -> Verdict
    ensures { result ≡ verdict text.now }
{
    let sizes = [16usize, 16, 4, 0, 16];
    if !vectors::has_sizes(text, &sizes) {
        return Verdict::Malformed;
    }
    vectors::judged(true, agrees(text))
}

fn judge_cases(text: &[u8]) -> Report
    ensures { result ≡ report verdict 5 text.now }
{
    vectors::judge_cases(text, 5, judge)
}

fn main(rt: HostRuntime) -> io::Result<()> {
    report_line::check_file(&rt, b"example_field_products.bin", judge_cases)
}
