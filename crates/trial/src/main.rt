// Standard input to standard output over a session.

#![tactic(auto)]

use std::io;

// From standard input to standard output.
fn main(rt: HostRuntime) -> io::Result<()> {
    // One byte more than a session takes, so that an input that is too long is seen.
    let mut input = [0u8; 16385];
    let n = full_reads::read_full(&mut rt.stdin(), &mut input)?;
    let mut out = [0u8; 393240];
    let r = session::session(&input[..n], &mut out);
    rt.stdout().write_all(&out[..r])
}
