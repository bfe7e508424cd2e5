//! Where the parts of a drawing stand.

ghost use Rattle.std.specs.Prelude.{◌≡◌, ◌++◌, ◌+◌, ◌*◌, ◌/◌, ◌%◌, ◌<◌, ◌≤◌, OnOk, string_bytes};
ghost use Rattle.svg.specs.Drawing.{group_text};
ghost use Rattle.xbar_office_drawing.specs.Drawing.{cards_top as cards_top_of, drawing_height as drawing_height_of, paths_top as paths_top_of, row_count as row_count_of};

use std::alloc::AllocError;
use svg::add_group;

/// Pictures of one size that stand in rows of so many.
#[derive(Clone, Copy)]
pub struct Rows {
    pub count: usize,
    pub width: u16,
    pub height: u16,
}

/// The entries of the index.
pub const INDEX: Rows = Rows {
    count: 4,
    width: 390,
    height: 24,
};

/// The cards of paths.
pub const PATH_CARDS: Rows = Rows {
    count: 3,
    width: 520,
    height: 184,
};

/// The trouble cards.
pub const CARDS: Rows = Rows {
    count: 3,
    width: 520,
    height: 250,
};

/// Begins the group of picture number `k`, counted from 0, of pictures with this upper edge.
pub fn add_place(text: &mut String, rows: Rows, top: u128, k: usize) -> Result<(), AllocError>
    requires some { 0 < rows.count }
    requires few { rows.count ≤ 4 }
    requires narrow { rows.width ≤ 520 }
    requires room { top ≤ 20000000000000000000000 }
    ensures { OnOk result (string_bytes text.new ≡ string_bytes text.old ++
        group_text (40 + rows.width * (k % rows.count))
        (top + rows.height * (k / rows.count))) }
{
    let column = (k % rows.count) as u16;
    let row = (k / rows.count) as u128;
    let across = 40 + rows.width * column;
    let down = top + u128::from(rows.height) * row;
    add_group(text, across, down)
}

/// How many rows of so many pictures there are.
fn row_count(count: usize, pictures: usize) -> u128
    requires some { 0 < count }
    requires few { count ≤ 4 }
    ensures value { result ≡ row_count_of count pictures }
    ensures range { result ≤ 18446744073709551619 }
{
    (pictures as u128 + count as u128 - 1) / count as u128
}

/// The upper edge of the first card of a path, below the index of so many paths.
pub fn paths_top(paths: usize) -> u128
    ensures value { result ≡ paths_top_of paths }
    ensures range { result ≤ 500000000000000000000 }
{
    940 + u128::from(INDEX.height) * row_count(INDEX.count, paths)
}

/// The upper edge of the first trouble card.
pub fn cards_top(paths: usize) -> u128
    ensures value { result ≡ cards_top_of paths }
    ensures range { result ≤ 5000000000000000000000 }
{
    paths_top(paths) + u128::from(PATH_CARDS.height) * row_count(PATH_CARDS.count, paths)
}

/// The height of a drawing with so many paths and cards.
pub fn drawing_height(paths: usize, cards: usize) -> u128
    ensures { result ≡ drawing_height_of paths cards }
{
    cards_top(paths) + u128::from(CARDS.height) * row_count(CARDS.count, cards)
}
