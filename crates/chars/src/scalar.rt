// Unicode scalar values. Document 01, refusal 2.
ghost use Rattle.std.specs.Prelude.{◌≡◌, not};
ghost use Rattle.lists.specs.Lists.{any};
ghost use Rattle.chars.specs.Scalar.{is_scalar, not_scalar};

// Whether x is a code point that a character can have: at most 0x10FFFF, and no surrogate.
pub fn is_scalar(x: u32) -> bool
    ensures { result ≡ is_scalar x }
{
    if x < 0xd800 {
        return true;
    }
    if x <= 0xdfff {
        return false;
    }
    x <= 0x10ffff
}

// Whether every value is one. One pass with neither a branch nor an early return in it, which the
// compiler can do several values at a time.
pub fn all_scalar(l: &[u32]) -> bool
    ensures { result ≡ not (any not_scalar l.now) }
{
    let mut wrong = false;
    for x in l {
        wrong |= !((*x <= 0x10ffff) & ((*x < 0xd800) | (*x > 0xdfff)));
    }
    !wrong
}
