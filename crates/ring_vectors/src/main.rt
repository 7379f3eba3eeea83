#![tactic(auto)]
// Works through files of example products, inverses and remainders of the ring and prints a line for each: how many cases agreed
// and how many differed, or what is wrong with the file.
use report_line::check_file;
use ring_cases::{Kind, judge_file};
use std::io;

fn main(rt: HostRuntime) -> io::Result<()> {
    check_file(&rt, b"example_products.bin", |text| {
        judge_file(Kind::Products, text)
    })?;
    check_file(&rt, b"example_inverses.bin", |text| {
        judge_file(Kind::Inverses, text)
    })?;
    check_file(&rt, b"example_remainders.bin", |text| {
        judge_file(Kind::Remainders, text)
    })
}
