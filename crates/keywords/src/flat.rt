// The keyword test for a loop over characters: the table flattened once into bounds that are lent,
// and the ranges of the letters lent.
ghost use Rattle.std.specs.Prelude.{◌≡◌, ◌+◌, ◌≤◌, length, take};
ghost use Rattle.letters.specs.Letters.{LetterRanges};
ghost use Rattle.keywords.specs.Table.{kept};
ghost use Rattle.keywords.specs.Flat.{flat, padded, any_alpha, within, flat_holds};

use crate::KeywordSpec;

// Two bounds for each token, both ends in; for one that is no range, two that hold nothing. The
// places after them are 0.
pub fn bounds_of(spec: KeywordSpec) -> [u32; 256]
    requires { spec.len ≤ 128 }
    ensures { result ≡ padded (flat (kept spec)) }
{
    let mut bounds = [0u32; 256];
    for (i, t) in spec.tokens[..spec.len].iter().enumerate() {
        bounds[i + i] = t.low();
        bounds[i + i + 1] = t.high();
    }
    bounds
}

// Whether a token holds every letter.
pub fn letters_of(spec: KeywordSpec) -> bool
    requires { spec.len ≤ 128 }
    ensures { result ≡ any_alpha (kept spec) }
{
    for t in &spec.tokens[..spec.len] {
        if t.kind == 1 {
            return true;
        }
    }
    false
}

// Whether one of the first n pairs of bounds holds c.
pub fn in_bounds(bounds: &[u32], n: usize, c: u32) -> bool
    requires { n + n ≤ length bounds.now }
    ensures { result ≡ within (take (n + n) bounds.now) c }
{
    for i in 0..n {
        let lo = bounds[i + i];
        let hi = bounds[i + i + 1];
        if (lo <= c) & (c <= hi) {
            return true;
        }
    }
    false
}

// Whether c is in one of the first n pairs of bounds or, where `alphabetic`, a letter.
pub fn holds(
    bounds: &[u32],
    n: usize,
    alphabetic: bool,
    starts: &[u32],
    lengths: &[u16],
    c: u32,
) -> bool
    requires { (n + n ≤ length bounds.now) × LetterRanges starts.now lengths.now }
    ensures { result ≡ flat_holds (take (n + n) bounds.now) alphabetic c }
{
    if !alphabetic {
        return in_bounds(bounds, n, c);
    }
    if letters::letter_in(starts, lengths, c) {
        return true;
    }
    in_bounds(bounds, n, c)
}
