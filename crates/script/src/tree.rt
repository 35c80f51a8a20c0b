//! JSON values as trees that own their texts.
use serde_json::Number;

/// A JSON value. An object has its members in the order of the text, and of several with one key the last counts.
#[derive(Drop)]
pub enum Tree {
    Null,
    Truth(bool),
    Number(Number),
    Text(String),
    List(Vec<Tree>),
    Object(Vec<(String, Tree)>),
}
