// A list written without its retired signs.
ghost use Rattle.std.specs.Prelude.{◌≡◌, ◌++◌, ◌≤◌, length, drop};
ghost use Rattle.list_signs.specs.Plain.{without, PlainRoom, plain_of, plain_in};

use crate::Plain;

// How many code points of the list have no mark.
fn count_plain(list: &[u32], marks: &[bool]) -> usize
    requires { length list.now ≤ length marks.now }
    ensures { result ≡ length (without list.now marks.now) }
{
    let mut n: usize = 0;
    for i in 0..list.len() {
        if !marks[i] {
            n += 1;
        }
    }
    n
}

// Writes them to the front of the room.
fn write_plain(list: &[u32], marks: &[bool], room: &mut [u32])
    requires { PlainRoom list.now marks.now room.old }
    ensures { room.new ≡ without list.now marks.now
        ++ drop (length (without list.now marks.now)) room.old }
{
    let mut n: usize = 0;
    for (i, x) in list.iter().enumerate() {
        if !marks[i] {
            room[n] = *x;
            n += 1;
        }
    }
}

// Writes the list without its retired signs to the front of the room, all else as it stood, and
// answers how many code points those are; refuses 7, then 14 for a room that is too short.
pub fn without_plus(list: &[u32], room: &mut [u32]) -> Plain
    ensures value { result ≡ plain_of list.now room.old }
    ensures room_after { room.new ≡ plain_in list.now room.old }
{
    if list_parts::refused_list(list) != 0 {
        return Plain::Refused(7);
    }
    let marks = crate::marks::marks_of(list);
    let n = count_plain(list, &marks);
    if room.len() < n {
        return Plain::Refused(14);
    }
    write_plain(list, &marks, room);
    Plain::Made(n)
}
