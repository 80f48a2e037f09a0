// Asks `chars` and `widths` about every scalar value and prints what holds where. The stored output
// is what the oracle's Rust prints (tools/char-tables), so a difference fails the gate. Document
// 01, "Character facts": a program compares all 1,112,064 scalar values.

#![tactic(auto)]

use std::io;
use std::io::Write;
use widths::Ambiguous;

// What is asked.
#[derive(Clone, Copy)]
enum Fact {
    Scalar,
    Letter,
    White,
    Width(u32),
    // The width under the setting wide.
    Wide(u32),
}

// Whether the fact holds of x.
fn holds(fact: Fact, x: u32) -> bool {
    if !chars::is_scalar(x) {
        return false;
    }
    match fact {
        Fact::Scalar => true,
        Fact::Letter => letters::is_letter(x),
        Fact::White => chars::is_white(x),
        Fact::Width(w) => chars::width(x) == w,
        Fact::Wide(w) => widths::width(Ambiguous::Wide, x) == w,
    }
}

// Prints a number in decimal.
fn print_number<W: Write>(out: &mut W, n: u32) -> io::Result<()> {
    write!(out, " {n}")
}

// Prints what a fact is called.
fn print_name<W: Write>(out: &mut W, fact: Fact) -> io::Result<()> {
    match fact {
        Fact::Scalar => out.write_all(b"scalar"),
        Fact::Letter => out.write_all(b"letter"),
        Fact::White => out.write_all(b"white"),
        Fact::Width(w) => {
            out.write_all(b"width")?;
            print_number(out, w)
        }
        Fact::Wide(w) => {
            out.write_all(b"wide")?;
            print_number(out, w)
        }
    }
}

// Prints the first and the last of a run of code points that a fact holds of.
fn print_range<W: Write>(out: &mut W, fact: Fact, first: u32, last: u32) -> io::Result<()> {
    print_name(out, fact)?;
    print_number(out, first)?;
    print_number(out, last)?;
    out.write_all(b"\n")
}

// Prints of how many code points a fact holds.
fn print_total<W: Write>(out: &mut W, fact: Fact, total: u32) -> io::Result<()> {
    print_name(out, fact)?;
    out.write_all(b" total")?;
    print_number(out, total)?;
    out.write_all(b"\n")
}

// Prints the fact's ranges, both ends in, and how many code points they hold. The code point after
// the last ends the last range: it is no scalar value.
fn show<W: Write>(out: &mut W, fact: Fact) -> io::Result<()> {
    let mut total: u32 = 0;
    let mut first: u32 = 0;
    let mut last: u32 = 0;
    let mut inside = false;
    for x in 0..=0x110000 {
        if holds(fact, x) {
            if !inside {
                first = x;
            }
            inside = true;
            last = x;
            total += 1;
        } else {
            if inside {
                print_range(out, fact, first, last)?;
            }
            inside = false;
        }
    }
    print_total(out, fact, total)
}

// Prints each fact of every scalar value, in runs.
fn main(rt: HostRuntime) -> io::Result<()> {
    let mut out = rt.stdout();
    show(&mut out, Fact::Scalar)?;
    show(&mut out, Fact::Letter)?;
    show(&mut out, Fact::White)?;
    show(&mut out, Fact::Width(0))?;
    show(&mut out, Fact::Width(2))?;
    show(&mut out, Fact::Wide(0))?;
    show(&mut out, Fact::Wide(2))
}
