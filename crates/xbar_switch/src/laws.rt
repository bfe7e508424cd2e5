//! Laws of closing and opening a field of a word: or-ing in its close bits and and-ing with its
//! open mask. They hold for every shape, word, field and place. Each function does nothing; its
//! contract is the law.
ghost use Rattle.xbar_switch.specs.Laws.{ClosingSetsField, ClosingKeepsOthers, ClosingKeepsAbove, OpeningClearsField, OpeningKeepsOthers, OpeningKeepsAbove};

/// Closing an open field sets it to one plus the place.
pub fn closing_sets_the_field()
    ensures { ClosingSetsField }
{}

/// Closing a field keeps the other fields and the bits above the ten fields.
pub fn closing_keeps_the_rest()
    ensures others { ClosingKeepsOthers }
    ensures above { ClosingKeepsAbove }
{}

/// Opening a field sets it to 0.
pub fn opening_clears_the_field()
    ensures { OpeningClearsField }
{}

/// Opening a field keeps the other fields and the bits above the ten fields.
pub fn opening_keeps_the_rest()
    ensures others { OpeningKeepsOthers }
    ensures above { OpeningKeepsAbove }
{}
