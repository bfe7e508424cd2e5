//! Plans: their tables, how they are read and written, their limits, and refused memory. Texts
//! with a fault are rows of `worked_rows`.

mod limits;
mod memory;
mod tables;
mod texts;
