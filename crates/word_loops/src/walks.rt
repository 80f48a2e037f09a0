// The loops of the word motions: each goes from place to place while its test holds. motions.rs,
// "Internals".
ghost use Rattle.word_loops.specs.Walks.{skip, leave, run, back};
ghost use Rattle.word_loops.specs.Halts.{Stops};
ghost use Rattle.word_kinds.specs.Spots.{place_of, IsSpot};
ghost use Rattle.word_kinds.specs.Lent.{Bounds, kinds_by};

use word_ends::Halt;
use word_kinds::{Alphabet, Spot, near};

// On over the places of the kinds a and b, in this row and the next ones.
pub fn skip(t: &[u32], by: &Alphabet<'_>, a: u32, b: u32, p: Spot) -> Halt<Spot>
    requires { Bounds t.now by.now × IsSpot t.now p }
    ensures { Stops t.now result
        (skip t.now (kinds_by by.now) a b
        (place_of t.now p)) }
{
    let mut cur = p;
    // A `loop`: from place to place, over the ends of rows, and not by a counted index.
    loop {
        let k = near::kind_at(t, by, cur);
        if !((k == a) | (k == b)) {
            return Halt::Onto(cur);
        }
        match near::step_forward(t, cur) {
            Some(q) => {
                cur = q;
            }
            None => {
                return Halt::Stuck(cur);
            }
        }
    }
}

// On over the places of a kind in the place's row; the next row's first place ends it.
pub fn leave(t: &[u32], by: &Alphabet<'_>, kind: u32, p: Spot) -> Halt<Spot>
    requires { Bounds t.now by.now × IsSpot t.now p }
    ensures { Stops t.now result
        (leave t.now (kinds_by by.now) kind
        (place_of t.now p)) }
{
    let row = p.row;
    let mut cur = p;
    // A `loop`: from place to place, over the ends of rows, and not by a counted index.
    loop {
        let k = near::kind_at(t, by, cur);
        if !((k == kind) & (cur.row == row)) {
            return Halt::Onto(cur);
        }
        match near::step_forward(t, cur) {
            Some(q) => {
                cur = q;
            }
            None => {
                return Halt::Stuck(cur);
            }
        }
    }
}

// On to the last place of a kind in the place's row.
pub fn run(t: &[u32], by: &Alphabet<'_>, kind: u32, p: Spot) -> Halt<Spot>
    requires { Bounds t.now by.now × IsSpot t.now p }
    ensures { Stops t.now result
        (run t.now (kinds_by by.now) kind
        (place_of t.now p)) }
{
    let mut cur = p;
    // A `loop`: from place to place, over the ends of rows, and not by a counted index.
    loop {
        match near::step_forward(t, cur) {
            Some(q) => {
                let k = near::kind_at(t, by, q);
                if !((q.row == cur.row) & (k == kind)) {
                    return Halt::Onto(cur);
                }
                cur = q;
            }
            None => {
                return Halt::Onto(cur);
            }
        }
    }
}

// Back over the places of a class; an empty row ends it.
pub fn back(t: &[u32], by: &Alphabet<'_>, class: u32, p: Spot) -> Halt<Spot>
    requires { Bounds t.now by.now × IsSpot t.now p }
    ensures { Stops t.now result
        (back t.now (kinds_by by.now) class
        (place_of t.now p)) }
{
    let mut cur = p;
    // A `loop`: from place to place, over the ends of rows, and not by a counted index.
    loop {
        let k = near::cls(t, by, cur);
        if !((k == class) & !near::on_empty_row(t, cur)) {
            return Halt::Onto(cur);
        }
        match near::dec(t, cur) {
            Some(q) => {
                cur = q;
            }
            None => {
                return Halt::Stuck(cur);
            }
        }
    }
}
