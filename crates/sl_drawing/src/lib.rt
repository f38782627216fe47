//! The elements of a picture in SVG, and their text.
//!
//! A picture is a front with its size, a head that is the same in each (colours, patterns, signs), elements, one a line, further ones that are
//! moved down below these, and a tail. An element is a rectangle, with a title or without, a label, or one of the head's signs. What it looks
//! like is said by a class of a fixed list, and where it stands by whole numbers, so the words of a schedule stand nowhere but between tags, and
//! there each of them is escaped: `sums` are positions that stay within 64 bits, `classes` the list, `elements` writes them, `style` has the
//! head. `laws` says that a picture is well formed, whatever its elements and whatever bytes their texts have.
#![tactic(auto)]

mod classes;
mod elements;
mod laws;
mod style;
mod sums;

pub use classes::{Class, Symbol};
pub use elements::{
    Area, push_front, push_head, push_label, push_lowered, push_rect, push_symbol, push_tail,
    push_titled,
};
pub use laws::pictures_are_well_formed;
pub use sums::{letters, minus, plus, times};
