// The entry of a list, where plus signs are retired.
ghost use Rattle.std.specs.Prelude.{◌≡◌, ◌≤◌, length};
ghost use Rattle.list_signs.specs.Plain.{first_in, refused_at, entry_of};

use crate::Entered;
use keywords::KeywordSpec;

// Where the first mark of the list is true, or the list's length.
fn first_mark(list: &[u32], marks: &[bool]) -> usize
    requires { length list.now ≤ length marks.now }
    ensures { result ≡ first_in list.now marks.now }
{
    for i in 0..list.len() {
        if marks[i] {
            return i;
        }
    }
    list.len()
}

// A refusal and its place, with the empty table in the table's place.
fn refused_at(n: u32, place: usize) -> Entered
    ensures { result ≡ refused_at n place }
{
    let spec = KeywordSpec::new();
    Entered {
        refusal: n,
        place,
        spec,
    }
}

// The table of a list as `KeywordSpec::parse` reads it; refuses 7, then 21 with the place of the
// first retired sign, then 8.
pub fn enter(list: &[u32]) -> Entered
    ensures { result ≡ entry_of list.now }
{
    if list_parts::refused_list(list) != 0 {
        return refused_at(7, 0);
    }
    let marks = crate::marks::marks_of(list);
    let at = first_mark(list, &marks);
    if at < list.len() {
        return refused_at(21, at);
    }
    let read = KeywordSpec::parse(list);
    let spec = read.spec;
    Entered {
        refusal: read.refusal,
        place: 0,
        spec,
    }
}
