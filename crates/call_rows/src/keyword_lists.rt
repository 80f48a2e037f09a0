// Keyword lists.
ghost use Rattle.std.specs.Prelude.{◌≡◌};
ghost use Rattle.call_bytes.specs.Reply.{Replied};
ghost use Rattle.call_rows.specs.Lists.{told_matched, token_count, by_table, in_table, keyword};
ghost use Rattle.call_rows.specs.Lists.{keywords as keywords_of};

use call_bytes::{Told, reply};
use keywords::{KeywordSpec, Matched, Parsed};

// Whether the list holds the character, 1 or 0, or the number it is refused with.
fn told_matched(m: Matched) -> Told
    ensures { result ≡ told_matched m }
{
    match m {
        Matched::Is(b) => Told::Value(u32::from(b)),
        Matched::Refused(f) => Told::Refused(f),
    }
}

// How many tokens of the list are kept.
fn token_count(list: &[u32]) -> Told
    ensures { result ≡ token_count list.now }
{
    let p = KeywordSpec::parse(list);
    if p.refusal != 0 {
        return Told::Refused(p.refusal);
    }
    Told::Value(p.spec.len as u32)
}

// Whether x is a keyword character by the table of a parsed list.
fn by_table(p: Parsed, x: u32) -> Told
    ensures { result ≡ by_table p x }
{
    if p.refusal != 0 {
        return Told::Refused(p.refusal);
    }
    let spec = p.spec;
    told_matched(spec.matches(x))
}

// Whether x is a keyword character by the list's table; the number of the character comes first.
fn in_table(list: &[u32], x: u32) -> Told
    ensures { result ≡ in_table list.now x }
{
    if !chars::is_scalar(x) {
        return Told::Refused(2);
    }
    by_table(KeywordSpec::parse(list), x)
}

// What a number stands for: 0 how many tokens are kept, 1 whether the list's table holds x, 2
// whether the list read directly holds x; 100 where it stands for none.
fn keyword_by(op: u32, list: &[u32], x: u32) -> Told
    ensures { result ≡ keyword op x list.now }
{
    match op {
        0 => token_count(list),
        1 => in_table(list, x),
        2 => told_matched(keywords::is_keyword_char(x, list)),
        _ => Told::Refused(100),
    }
}

// A keyword list of code points and a character.
pub fn keywords(op: u32, list: &[u32], x: u32, out: &mut [u32; 1]) -> u32
    ensures { Replied (keywords_of op x list.now) out.old result
        out.new }
{
    reply(keyword_by(op, list, x), out)
}
