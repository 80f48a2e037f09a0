// The second engine of the word motions: the classes of a text, and the motions by them (document
// 02, #113). The slice of classes is bytes in either form.
ghost use Rattle.std.specs.Prelude.{◌≡◌, [], ◌∷◌};
ghost use Rattle.call_points.specs.Points.{points};
ghost use Rattle.call_bytes.specs.Reply.{Replied, fitting};
ghost use Rattle.call_bytes.specs.Joined.{AnsweredAll, unfit_all};
ghost use Rattle.call_texts.specs.Carets.{caret_of};
ghost use Rattle.call_folds.specs.Terms.{is_big};
ghost use Rattle.call_classes.specs.Classed.{classing, classes_in};
ghost use Rattle.call_classes.specs.ByTerm.{words_by_class, slices_left};

use call_bytes::{fill_three, fill_two};

// The classes of a text of code points, by a keyword list.
#[unsafe(no_mangle)]
pub extern "C" fn tsivareza_word_classes_u32(
    text: &[u32],
    list: &[u32],
    classes: &mut [u8],
    out: &mut [u32; 1],
) -> u32
    ensures replied { Replied (classing text.now list.now
        classes.old) out.old result out.new }
    ensures classes_after { classes.new ≡ classes_in text.now list.now
        classes.old }
{
    call_classes::word_classes(text, list, classes, out)
}

// The same of a text and a list of bytes, which share the room.
#[unsafe(no_mangle)]
pub extern "C" fn tsivareza_word_classes(
    text: &[u8],
    list: &[u8],
    room: &mut [u32],
    classes: &mut [u8],
    out: &mut [u32; 1],
) -> u32
    ensures answered_all { AnsweredAll (text.now ∷ list.now ∷ []) room.old
        out.old (classing (points text.now) (points list.now)
        classes.old) result room.new out.new }
    ensures classes_after { classes.new ≡ fitting (unfit_all (text.now ∷
        list.now ∷ []) room.old) (classes_in (points text.now)
        (points list.now) classes.old) classes.old }
{
    let f = fill_two(text, list, room);
    if f != 0 {
        return f;
    }
    let n = text.len() / 4;
    let end = n + list.len() / 4;
    let all: &[u32] = room;
    call_classes::word_classes(&all[..n], &all[n..end], classes, out)
}

// A word motion by the classes over a text of code points, with folds and a keyword list; big words
// where `big` is not 0.
#[unsafe(no_mangle)]
pub extern "C" fn tsivareza_word_by_class_u32(
    op: u32,
    text: &[u32],
    folds: &[u32],
    list: &[u32],
    row: u32,
    col: u32,
    held: u32,
    sticky: u32,
    big: u32,
    count: u32,
    classes: &mut [u8],
    out: &mut [u32; 4],
) -> u32
    ensures replied { Replied (words_by_class op (is_big big) count (caret_of row col held sticky)
        text.now folds.now list.now classes.old)
        out.old result out.new }
    ensures classes_after { classes.new ≡ slices_left op (caret_of row col held sticky)
        text.now folds.now list.now classes.old }
{
    call_classes::word_by_class(
        op, text, folds, list, row, col, held, sticky, big, count, classes, out,
    )
}

// The same over a text, folds and a list of bytes, whose code points share the room.
#[unsafe(no_mangle)]
pub extern "C" fn tsivareza_word_by_class(
    op: u32,
    text: &[u8],
    folds: &[u8],
    list: &[u8],
    room: &mut [u32],
    row: u32,
    col: u32,
    held: u32,
    sticky: u32,
    big: u32,
    count: u32,
    classes: &mut [u8],
    out: &mut [u32; 4],
) -> u32
    ensures answered_all { AnsweredAll (text.now ∷ folds.now ∷ list.now ∷ [])
        room.old out.old (words_by_class op (is_big big) count (caret_of row col
        held sticky) (points text.now) (points folds.now)
        (points list.now) classes.old) result room.new
        out.new }
    ensures classes_after { classes.new ≡ fitting (unfit_all (text.now ∷
        folds.now ∷ list.now ∷ []) room.old) (slices_left op (caret_of
        row col held sticky) (points text.now) (points folds.now)
        (points list.now) classes.old) classes.old }
{
    let f = fill_three(text, folds, list, room);
    if f != 0 {
        return f;
    }
    let n = text.len() / 4;
    let m = n + folds.len() / 4;
    let end = m + list.len() / 4;
    let all: &[u32] = room;
    call_classes::word_by_class(
        op,
        &all[..n],
        &all[n..m],
        &all[m..end],
        row,
        col,
        held,
        sticky,
        big,
        count,
        classes,
        out,
    )
}
