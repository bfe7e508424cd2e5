//! The picture of one path.

mod lines;
mod switch_name;
mod table;
mod three;

pub use lines::add_path_lines;
