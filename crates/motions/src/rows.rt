// Motions to other rows: `+`, `-`, `_`, `gg` and `G`, by sections and by paragraphs, of motions.rs.
ghost use Rattle.std.specs.Prelude.{◌≡◌};
ghost use Rattle.motions.specs.Lines.{move_top, move_bottom, move_first_non_blank_next_line};
ghost use Rattle.motions.specs.Lines.{move_first_non_blank_prev_line, move_first_non_blank_line};
ghost use Rattle.motions.specs.Sections.{move_section_backward, move_section_forward};
ghost use Rattle.motions.specs.Sections.{move_section_end_backward, move_section_end_forward};
ghost use Rattle.motions.specs.Paragraphs.{move_paragraph_prev, move_paragraph_next};

use crate::{Caret, Moved};
use text_moves::Way;

impl Caret {
    // `gg`: the first row.
    pub fn move_top(self, t: &[u32]) -> Moved
        ensures { result ≡ move_top t.now self }
    {
        self.by(t, Way::Top, 1)
    }

    // `G`: the row of that number, counted from 1, or the last row with content; that one too for
    // count 0.
    pub fn move_bottom(self, t: &[u32], count: u32) -> Moved
        ensures { result ≡ move_bottom t.now count self }
    {
        self.by(t, Way::Bottom, count)
    }

    // `+`: so many rows down, or the last row with content; from there on it stays.
    pub fn move_first_non_blank_next_line(self, t: &[u32], count: u32) -> Moved
        ensures { result ≡ move_first_non_blank_next_line t.now count self }
    {
        self.by(t, Way::NextLine, count)
    }

    // `-`: so many rows up, or the first row; from there it stays.
    pub fn move_first_non_blank_prev_line(self, t: &[u32], count: u32) -> Moved
        ensures { result ≡ move_first_non_blank_prev_line t.now count self }
    {
        self.by(t, Way::PrevLine, count)
    }

    // `_`: so many rows down less one, or the last row with content; from there on it stays if it
    // was to go down.
    pub fn move_first_non_blank_line(self, t: &[u32], count: u32) -> Moved
        ensures { result ≡ move_first_non_blank_line t.now count self }
    {
        self.by(t, Way::ThisLine, count)
    }

    // `[[`: so many rows up that begin with `{`, or row 0.
    pub fn move_section_backward(self, t: &[u32], count: u32) -> Moved
        ensures { result ≡ move_section_backward t.now count self }
    {
        self.by(t, Way::SectionBackward, count)
    }

    // `]]`: so many rows down that begin with `{`, or the last row with content.
    pub fn move_section_forward(self, t: &[u32], count: u32) -> Moved
        ensures { result ≡ move_section_forward t.now count self }
    {
        self.by(t, Way::SectionForward, count)
    }

    // `[]`: so many rows up that begin with `}`, or row 0.
    pub fn move_section_end_backward(self, t: &[u32], count: u32) -> Moved
        ensures { result ≡ move_section_end_backward t.now count self }
    {
        self.by(t, Way::SectionEndBackward, count)
    }

    // `][`: so many rows down that begin with `}`, or the last row with content.
    pub fn move_section_end_forward(self, t: &[u32], count: u32) -> Moved
        ensures { result ≡ move_section_end_forward t.now count self }
    {
        self.by(t, Way::SectionEndForward, count)
    }

    // `{`: so many paragraphs up, or row 0; a count that runs out of rows before its last round
    // moves nothing.
    pub fn move_paragraph_prev(self, t: &[u32], count: u32) -> Moved
        ensures { result ≡ move_paragraph_prev t.now count self }
    {
        self.by(t, Way::ParagraphPrev, count)
    }

    // `}`: so many paragraphs down, or the last character of the last row with content; likewise.
    pub fn move_paragraph_next(self, t: &[u32], count: u32) -> Moved
        ensures { result ≡ move_paragraph_next t.now count self }
    {
        self.by(t, Way::ParagraphNext, count)
    }
}
