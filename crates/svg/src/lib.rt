//! Drawings of a few shapes, written as SVG.
#![tactic(auto)]

pub use drawing::{
    add_drawing, add_foot, add_group, add_group_end, add_head, add_named_group, add_open,
};
pub use escape::add_escaped;
pub use shape::{Bend, Point, Shape, ShapeOf};
pub use write::{add_shape, add_shapes};

mod drawing;
mod escape;
pub mod laws;
mod shape;
mod write;
