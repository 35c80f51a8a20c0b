//! A program with the typings of its methods.
use hierarchy::{Program, Typing};

/// A program, and the narrowest typing of each of its methods, in the order of their numbers. That of a method without code is empty.
#[derive(Drop)]
pub struct Typed<'a> {
    pub program: &'a Program,
    pub typings: &'a [Typing],
}
