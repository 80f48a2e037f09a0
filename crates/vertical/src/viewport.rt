// The rows that the viewport motions lead to: `H`, `M` and `L` of motions.rs, "Viewport-relative
// motions". Rows and heights are 32 and 16 bits wide and the sums 64, so that none wraps.
ghost use Rattle.std.specs.Prelude.{◌≡◌, ◌-◌, min};
ghost use Rattle.text.specs.Text.{content_rows};
ghost use Rattle.text.specs.Offsets.{line_at};
ghost use Rattle.vertical.specs.Viewport.{bottom_row, top_row, middle_row, base_row};
ghost use Rattle.vertical.specs.Viewport.{viewport_row, Counts};

use crate::Edge;
use text::Line;

// Row `row`, or the last row with content where there are fewer of those.
fn content_line(t: &[u32], rows: usize, content: usize, row: usize) -> Line
    requires { Counts t.now rows content }
    ensures { result ≡ line_at t.now (min row (content_rows t.now - 1)) }
{
    text::offsets::row_line(t, rows, row.min(content - 1))
}

// The last row of the viewport, or the last row with content.
fn bottom_row(t: &[u32], content: usize, top: u32, height: u16) -> usize
    requires { content ≡ content_rows t.now }
    ensures { result ≡ bottom_row t.now top height }
{
    let last = content - 1;
    (top as usize + (height as usize).saturating_sub(1)).min(last)
}

// `H`: so many rows below the viewport's first, or the last row with content.
fn viewport_top(t: &[u32], rows: usize, content: usize, top: u32, offset: u32) -> Line
    requires { Counts t.now rows content }
    ensures { result ≡ line_at t.now (top_row t.now top offset) }
{
    content_line(t, rows, content, top as usize + offset as usize)
}

// `M`: the row in the middle between the viewport's first row and its last.
fn viewport_middle(t: &[u32], rows: usize, content: usize, top: u32, height: u16) -> Line
    requires { Counts t.now rows content }
    ensures { result ≡ line_at t.now (middle_row t.now top height) }
{
    let bottom = bottom_row(t, content, top, height);
    content_line(
        t,
        rows,
        content,
        top as usize + bottom.saturating_sub(top as usize) / 2,
    )
}

// `L`: so many rows above the viewport's last, but not above its first, or the last row with
// content.
fn viewport_bottom(
    t: &[u32],
    rows: usize,
    content: usize,
    top: u32,
    height: u16,
    offset: u32,
) -> Line
    requires { Counts t.now rows content }
    ensures { result ≡ line_at t.now (base_row t.now top height offset) }
{
    let bottom = bottom_row(t, content, top, height);
    content_line(
        t,
        rows,
        content,
        bottom.saturating_sub(offset as usize).max(top as usize),
    )
}

// The row of a viewport's edge, and where it starts, in a text of so many rows and rows with
// content. `M` has no offset.
pub fn viewport_line(
    t: &[u32],
    rows: usize,
    content: usize,
    edge: Edge,
    top: u32,
    height: u16,
    offset: u32,
) -> Line
    requires { Counts t.now rows content }
    ensures { result ≡ line_at t.now
        (viewport_row edge t.now top height offset) }
{
    match edge {
        Edge::Top => viewport_top(t, rows, content, top, offset),
        Edge::Middle => viewport_middle(t, rows, content, top, height),
        Edge::Bottom => viewport_bottom(t, rows, content, top, height, offset),
    }
}
