// A case is a row of numbers: the group of calls, the operation in it, eight numbers, how many
// numbers follow of a text or row, of folds and of a list, those, and then the stored answer.
ghost use Rattle.std.specs.Prelude.{◌≡◌, ◌≤◌, length};
ghost use Rattle.replay_rows.specs.Cases.{head_of};

use crate::Head;

// The operation and the eight numbers.
pub fn head_of(ns: &[u32]) -> Head
    requires { 13 ≤ length ns.now }
    ensures { result ≡ head_of ns.now }
{
    Head {
        op: ns[1],
        a: ns[2],
        b: ns[3],
        c: ns[4],
        d: ns[5],
        e: ns[6],
        f: ns[7],
        g: ns[8],
        h: ns[9],
    }
}
