// Fold files from standard input to standard output. Document 02, #111.

#![tactic(auto)]

mod runs;

use std::io;

// From standard input to standard output.
fn main(rt: HostRuntime) -> io::Result<()> {
    // One byte more than an input may have, so that one that is too long is seen.
    let mut input = [0u8; 32769];
    let n = full_reads::read_full(&mut rt.stdin(), &mut input)?;
    let mut out = [0u8; 8450];
    let r = runs::run(&input[..n], &mut out);
    rt.stdout().write_all(&out[..r])
}
