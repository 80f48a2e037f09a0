// A mark for each code point of a list: whether it is a retired sign.
ghost use Rattle.std.specs.Prelude.{◌≡◌, ◌++◌, false, ◌+◌, ◌-◌, ◌≤◌, ◌<◌, length, replicate};
ghost use Rattle.list_parts.specs.Numbers.{number_of};
ghost use Rattle.list_tokens.specs.Grammar.{is_token, range_of};
ghost use Rattle.list_signs.specs.Signs.{is_value, signs};
ghost use Rattle.list_signs.specs.Marks.{leads, seconds, marked, part_marked};

// `+`, `,` and `-`.
const PLUS: u32 = 43;

const COMMA: u32 = 44;

const MINUS: u32 = 45;

// Whether a trimmed part is a number.
fn is_number(p: &[u32]) -> bool
    ensures { result ≡ is_value (number_of p.now) }
{
    match list_parts::read_number(p) {
        Some(n) => true,
        None => false,
    }
}

// Whether a trimmed part is a range: a number before the first `-`, and one after it.
fn is_range(p: &[u32]) -> bool
    ensures { result ≡ is_token (range_of p.now) }
{
    let d = list_parts::find(p, 0, MINUS);
    if d >= p.len() {
        return false;
    }
    let e = d + 1;
    if !is_number(&p[..d]) {
        return false;
    }
    is_number(&p[e..])
}

// Whether a trimmed part begins with a retired sign.
fn leads_plus(p: &[u32]) -> bool
    ensures { result ≡ leads p.now }
{
    if p.len() == 0 {
        return false;
    }
    if p[0] != PLUS {
        return false;
    }
    if is_range(p) {
        return true;
    }
    is_number(p)
}

// Whether the second number of a trimmed part has a retired sign.
fn second_plus(p: &[u32]) -> bool
    ensures { result ≡ seconds p.now }
{
    let e = list_parts::find(p, 0, MINUS) + 1;
    if e >= p.len() {
        return false;
    }
    if p[e] != PLUS {
        return false;
    }
    is_range(p)
}

// Makes the mark at `at` true, if `on`.
fn mark(marks: &mut [bool], at: usize, on: bool)
    requires { at < length marks.old }
    ensures { marks.new ≡ marked on at marks.old }
{
    if on {
        marks[at] = true;
    }
}

// Makes the marks of a part p that begins at `from`. White space is neither `+` nor `-`, so the
// signs are found without trimming the part.
fn mark_part(p: &[u32], from: usize, marks: &mut [bool])
    requires { from + length p.now + 1 < length marks.old }
    ensures { marks.new ≡ part_marked p.now from marks.old }
{
    let kept = list_parts::trimmed(p);
    mark(marks, from + list_parts::find(p, 0, PLUS), leads_plus(kept));
    mark(
        marks,
        from + list_parts::find(p, 0, MINUS) + 1,
        second_plus(kept),
    );
}

// The marks of a list, one for its end, and false after it.
pub fn marks_of(list: &[u32]) -> [bool; 1026]
    requires { length list.now ≤ 1024 }
    ensures { result ≡ signs list.now ++ replicate (1025 - length list.now)
        false }
{
    let mut marks = [false; 1026];
    let mut from: usize = 0;
    // A `while`: it goes on by a part and its comma.
    while from <= list.len() {
        let e = list_parts::find(list, from, COMMA);
        mark_part(&list[from..e], from, &mut marks);
        from = e + 1;
    }
    marks
}
