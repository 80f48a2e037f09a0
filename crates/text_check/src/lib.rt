// The check of a text. From document 01, "Refusal numbers", 1 to 3.

#![tactic(auto)]

ghost use Rattle.std.specs.Prelude.{◌≡◌, cond};
ghost use Rattle.text_check.specs.Accept.{high_refusal, text_refusal};

// What is to be found from U+2028 on, where there is anything: 2 a value that is no scalar value, 3
// one of the two separators; else 0.
pub fn high_refusal(t: &[u32], high: bool) -> u32
    ensures { result ≡ cond high (high_refusal t.now) 0 }
{
    if !high {
        return 0;
    }
    let mut wrong = false;
    let mut separator = false;
    for &x in t {
        wrong |= !((x <= 0x10ffff) & ((x < 0xd800) | (x > 0xdfff)));
        separator |= (x == 0x2028) | (x == 0x2029);
    }
    if wrong {
        return 2;
    }
    if separator {
        return 3;
    }
    0
}

// The number that a text is refused with: 1 over 1,048,576 code points, 2 a value that is no scalar
// value, 3 a line break other than U+000A; 0 where it is accepted.
// One pass with no branch on what is read, so that the compiler reads many code points at a time,
// and a second where there are code points from U+2028 on. Line breaks have two flags: with one the
// compiler takes the last code point out of the loop, as a switch, and then reads them one by one.
pub fn text_refusal(t: &[u32]) -> u32
    ensures { result ≡ text_refusal t.now }
{
    if t.len() > 1048576 {
        return 1;
    }
    let mut high = false;
    let mut feed = false;
    let mut next = false;
    for &x in t {
        high |= x >= 0x2028;
        feed |= (x >= 0xb) & (x <= 0xd);
        next |= x == 0x85;
    }
    let f = high_refusal(t, high);
    if f != 0 {
        return f;
    }
    if feed | next {
        return 3;
    }
    0
}
