// Motions within a row, and by characters from row to row: motions.rs, "Horizontal motions".
ghost use Rattle.std.specs.Prelude.{◌≡◌};
ghost use Rattle.motions.specs.Columns.{move_left, move_right_in_line, move_right_to_end};
ghost use Rattle.motions.specs.Columns.{move_line_start, move_line_end, move_goto_column};
ghost use Rattle.motions.specs.Columns.{move_first_non_blank, move_last_non_blank};
ghost use Rattle.motions.specs.Steps.{move_space_fwd, move_backspace_back};

use crate::{Caret, Moved};
use text_moves::Way;

impl Caret {
    // `h`: left, not past column 0.
    pub fn move_left(self, t: &[u32], count: u32) -> Moved
        ensures { result ≡ move_left t.now count self }
    {
        self.by(t, Way::Left, count)
    }

    // `l`: right, not past the last character.
    pub fn move_right_in_line(self, t: &[u32], count: u32) -> Moved
        ensures { result ≡ move_right_in_line t.now count self }
    {
        self.by(t, Way::RightInLine, count)
    }

    // `l` where a range is meant: right, up to the row's character count.
    pub fn move_right_to_end(self, t: &[u32], count: u32) -> Moved
        ensures { result ≡ move_right_to_end t.now count self }
    {
        self.by(t, Way::RightToEnd, count)
    }

    // `0`: the first column.
    pub fn move_line_start(self, t: &[u32]) -> Moved
        ensures { result ≡ move_line_start t.now self }
    {
        self.by(t, Way::LineStart, 1)
    }

    // `$`: the last character, or column 0 of an empty row.
    pub fn move_line_end(self, t: &[u32]) -> Moved
        ensures { result ≡ move_line_end t.now self }
    {
        self.by(t, Way::LineEnd, 1)
    }

    // `|`: the column of that number, counted from 1, or the last column where the row is shorter.
    pub fn move_goto_column(self, t: &[u32], count: u32) -> Moved
        ensures { result ≡ move_goto_column t.now count self }
    {
        self.by(t, Way::GotoColumn, count)
    }

    // `^`: the first character of the row that is no blank, or its last one where all are.
    pub fn move_first_non_blank(self, t: &[u32]) -> Moved
        ensures { result ≡ move_first_non_blank t.now self }
    {
        self.by(t, Way::FirstNonBlank, 1)
    }

    // `g_`: the last character of the row that is no white space, or column 0 where all are.
    pub fn move_last_non_blank(self, t: &[u32]) -> Moved
        ensures { result ≡ move_last_non_blank t.now self }
    {
        self.by(t, Way::LastNonBlank, 1)
    }

    // `<Space>`: so many characters on, from the last column of a row to the next row; it stops in
    // the last.
    pub fn move_space_fwd(self, t: &[u32], count: u32) -> Moved
        ensures { result ≡ move_space_fwd t.now count self }
    {
        self.by(t, Way::SpaceFwd, count)
    }

    // `<BS>`: so many characters back, from the first column of a row to the row before; it stops
    // in the first.
    pub fn move_backspace_back(self, t: &[u32], count: u32) -> Moved
        ensures { result ≡ move_backspace_back t.now count self }
    {
        self.by(t, Way::BackspaceBack, count)
    }
}
