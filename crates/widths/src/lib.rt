// Widths under a setting: characters of class A of EastAsianWidth.txt, as the wind arrows, take one
// cell on most screens and two on some. Document 02, #107. A walk over widths takes the tables of
// the setting, lent; under `Narrow` they are those of `chars`.

#![tactic(auto)]

mod wide_table;

ghost use Rattle.std.specs.Prelude.{◌≡◌};
ghost use Rattle.chars.specs.declared.Measure.{Measure};
ghost use Rattle.widths.specs.Widths.{width_as, Lends};

use chars::Measure;
pub use wide_table::WIDE_DOUBLES;

// How a screen shows the characters of class A (Ambiguous): by their width, or in two cells where
// that is one.
#[derive(Clone, Copy)]
pub enum Ambiguous {
    Narrow,
    Wide,
}

// The width of x where class A is wide, by the tables that it names.
fn high_width(x: u32) -> u32
    ensures { result ≡ width_as Ambiguous.Wide x }
{
    let doubles = &WIDE_DOUBLES;
    let by = Measure {
        zeros: &chars::ZERO_WIDTH,
        doubles: doubles,
    };
    chars::width_in(by, x)
}

// The same, and without tables before U+00A1, the first character of the class.
fn wide_width(x: u32) -> u32
    ensures { result ≡ width_as Ambiguous.Wide x }
{
    if x < 0xa1 {
        return chars::width(x);
    }
    high_width(x)
}

// The width of x under a setting: 0, 1 or 2.
pub fn width(ambiguous: Ambiguous, x: u32) -> u32
    ensures { result ≡ width_as ambiguous x }
{
    match ambiguous {
        Ambiguous::Narrow => chars::width(x),
        Ambiguous::Wide => wide_width(x),
    }
}

// Lends the measure of a setting to what goes by it, a walk over widths. A table is built where a
// function names it, so that a walk is lent it.
pub fn lend<R, F: FnOnce(Measure<'_>) -> R>(ambiguous: Ambiguous, walk: F) -> R
    requires { (m : Measure) → Lends ambiguous m → F.pre walk m }
    ensures { (m : Measure) × Lends ambiguous m × F.post walk m result }
{
    match ambiguous {
        Ambiguous::Narrow => walk(Measure {
            zeros: &chars::ZERO_WIDTH,
            doubles: &chars::DOUBLE_WIDTH,
        }),
        Ambiguous::Wide => walk(Measure {
            zeros: &chars::ZERO_WIDTH,
            doubles: &WIDE_DOUBLES,
        }),
    }
}
