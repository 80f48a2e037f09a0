// Replays the oracle's stored answers over the calls for hosts: reads cases from standard input,
// one to a row, and says how many agree and which row is the first that doesn't. docs/TESTING.md
// says how the list is made.

#![tactic(auto)]

mod calls;
mod cases;
mod tallies;

use replay_verdicts::Tally;
use std::io;
use std::io::{Read, Write};

// Prints a number in decimal.
fn print_number<W: Write>(out: &mut W, n: usize) -> io::Result<()> {
    write!(out, "{n}")
}

// `12 cases, 12 agree`, and which row is the first that doesn't.
fn print_tally<W: Write>(out: &mut W, t: Tally) -> io::Result<()> {
    print_number(out, t.cases)?;
    out.write_all(b" cases, ")?;
    print_number(out, t.agree)?;
    out.write_all(b" agree\n")?;
    if t.first == 0 {
        return Ok(());
    }
    out.write_all(b"the first that differs: row ")?;
    print_number(out, t.first)?;
    if t.malformed {
        out.write_all(b", which is malformed")?;
    }
    out.write_all(b"\n")
}

// Reads the list into `input`, which is one byte longer than a list may be, so that one that is too
// long is seen.
fn run<R: Read, W: Write>(from: &mut R, out: &mut W, input: &mut [u8]) -> io::Result<()> {
    let n = full_reads::read_full(from, input)?;
    if n == input.len() {
        return out.write_all(b"the list is too long\n");
    }
    print_tally(out, tallies::tally_of(&input[..n]))
}

// Reads stored rows from standard input, and prints how many answers are the same and how many
// differ.
fn main(rt: HostRuntime) -> io::Result<()> {
    let mut input = [0u8; 1048577];
    run(&mut rt.stdin(), &mut rt.stdout(), &mut input)
}
