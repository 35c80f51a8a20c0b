//! Looking into JSON values.
ghost use Rattle.std.specs.Prelude.{◌≡◌, map, option_map, bytes_eq, string_bytes, is_some};
ghost use Rattle.std.specs.List.{list_all, list_any};
ghost use Rattle.serde_json.specs.Find.{as_bool, as_null, as_str, get, get_member};
ghost use Rattle.serde_json.specs.Data.{no_members};
ghost use Rattle.jmodel.specs.format.Reading.{Gives};
ghost use Rattle.script.specs.Json.{Tests, bad_shape as bad_shape_at, as_list, as_whole, is_object_of as is_object_with_keys, is_object_with as is_object_with_one, wanted, may_be};
ghost use Rattle.script.specs.Seen.{seen, members_seen, values};

use crate::refusals::{bad_member, bad_shape};
use crate::tree::Tree;
use jmodel::Halt;
use std::alloc::Global;

/// Whether two texts are the same.
fn equal(a: &[u8], b: &[u8]) -> bool
    ensures { result ≡ bytes_eq a.now b.now }
{
    a == b
}

/// Whether a key is one of these.
fn is_one_of(key: &[u8], keys: &[&str]) -> bool
    ensures { result ≡ list_any (λ k. bytes_eq key.now k.now) keys.now }
{
    keys.iter().any(|known| equal(key, known.as_bytes()))
}

/// Whether members have no other keys than these.
fn has_only(members: &[(String, Tree)], keys: &[&str]) -> bool
    ensures { result ≡ list_all (λ m. list_any (λ k. bytes_eq (string_bytes m.0) k.now) keys.now) members.now }
{
    members
        .iter()
        .all(|(key, _)| is_one_of(key.as_bytes(), keys))
}

/// Whether a value is an object that has no other keys than these.
pub fn is_object_of(value: &Tree, keys: &[&str]) -> bool
    ensures { result ≡ is_object_with_keys (map (λ k. k.now) keys.now) (seen value.now) }
{
    match value {
        Tree::Object(members) => has_only(members.as_slice(), keys),
        _ => false,
    }
}

/// The value of a key among members: the last, where several have it.
fn last_of<'a>(members: &'a [(String, Tree)], key: &str) -> Option<&'a Tree>
    ensures { option_map (λ v. seen v.now) result ≡ get_member key.now (members_seen members.now no_members) }
{
    let mut left = members.len();
    while left > 0 {
        left -= 1;
        let member = &members[left];
        if equal(member.0.as_bytes(), key.as_bytes()) {
            return Some(&member.1);
        }
    }
    None
}

/// The value of a key, where a value is an object that has it: the last, where it has several.
pub fn member_of<'a>(value: &'a Tree, key: &str) -> Option<&'a Tree>
    ensures { option_map (λ v. seen v.now) result ≡ get key.now (seen value.now) }
{
    match value {
        Tree::Object(members) => last_of(members.as_slice(), key),
        _ => None,
    }
}

/// The text that a value is.
pub fn text_of(value: &Tree) -> Option<&str>
    ensures { option_map (λ text. text.now) result ≡ as_str (seen value.now) }
{
    match value {
        Tree::Text(text) => Some(text.as_str()),
        _ => None,
    }
}

/// The truth value that a value is.
pub fn truth_of(value: &Tree) -> Option<bool>
    ensures { result ≡ as_bool (seen value.now) }
{
    match value {
        Tree::Truth(truth) => Some(*truth),
        _ => None,
    }
}

/// The whole number of 64 bits that a value is.
pub fn whole_of(value: &Tree) -> Option<i64>
    ensures { result ≡ as_whole (seen value.now) }
{
    match value {
        Tree::Number(number) => number.as_i64(),
        _ => None,
    }
}

/// Whether a value is null.
pub fn is_null(value: &Tree) -> bool
    ensures { result ≡ is_some (as_null (seen value.now)) }
{
    matches!(value, Tree::Null)
}

/// The items of a list.
pub fn list_of(value: &Tree) -> Option<&[Tree]>
    ensures { option_map values result ≡ as_list (seen value.now) }
{
    match value {
        Tree::List(items) => Some(items.as_slice()),
        _ => None,
    }
}

/// Whether a value is an object that has this key and no other.
pub fn is_object_with(value: &Tree, key: &str) -> bool
    ensures { result ≡ is_object_with_one key.now (seen value.now) }
{
    is_object_of(value, &[key]) && member_of(value, key).is_some()
}

/// The value at a path is to be an object that has no other keys than these.
pub fn object_at(alloc: Global, path: &[u8], value: &Tree, keys: &[&str]) -> Result<(), Halt>
    ensures { Tests result (is_object_with_keys (map (λ k. k.now) keys.now) (seen value.now)) (bad_shape_at path.now) }
{
    if is_object_of(value, keys) {
        Ok(())
    } else {
        Err(bad_shape(alloc, path))
    }
}

/// The list that a key of the object at a path has.
pub fn list_at<'a>(
    alloc: Global,
    path: &[u8],
    key: &str,
    value: &'a Tree,
) -> Result<&'a [Tree], Halt>
    ensures { Gives values result (wanted as_list path.now key.now (seen value.now)) }
{
    match member_of(value, key).and_then(list_of) {
        Some(items) => Ok(items),
        None => Err(bad_member(alloc, path, key)),
    }
}

/// The text that a key of the object at a path has.
pub fn text_at<'a>(alloc: Global, path: &[u8], key: &str, value: &'a Tree) -> Result<&'a str, Halt>
    ensures { Gives (λ text. text.now) result (wanted as_str path.now key.now (seen value.now)) }
{
    match member_of(value, key).and_then(text_of) {
        Some(text) => Ok(text),
        None => Err(bad_member(alloc, path, key)),
    }
}

/// The whole number that a key of the object at a path has.
pub fn whole_at(alloc: Global, path: &[u8], key: &str, value: &Tree) -> Result<i64, Halt>
    ensures { Gives (λ n. n) result (wanted as_whole path.now key.now (seen value.now)) }
{
    match member_of(value, key).and_then(whole_of) {
        Some(number) => Ok(number),
        None => Err(bad_member(alloc, path, key)),
    }
}

/// The whole number that a key of the object at a path has, or another where the key isn't there.
pub fn whole_or(
    alloc: Global,
    path: &[u8],
    key: &str,
    value: &Tree,
    other: i64,
) -> Result<i64, Halt>
    ensures { Gives (λ n. n) result (may_be as_whole other path.now key.now (seen value.now)) }
{
    let Some(found) = member_of(value, key) else {
        return Ok(other);
    };
    match whole_of(found) {
        Some(number) => Ok(number),
        None => Err(bad_member(alloc, path, key)),
    }
}
