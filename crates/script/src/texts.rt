//! Reading JSON texts.
ghost use Rattle.std.specs.Prelude.{◌≡◌, ◌<◌, length, Some, None, Err, IfOk, OnOk, IsUtf8};
ghost use Rattle.json.specs.Json.{value, items, members};
ghost use Rattle.serde_json.specs.Data.{no_members};
ghost use Rattle.serde_json.specs.Read.{of_json, of_items, of_members, converted, read as read_text};
ghost use Rattle.jmodel.specs.declared.refusal.Halt.TheVariants as halts;
ghost use Rattle.jmodel.specs.declared.refusal.Refusal.{Refusal as Why};
ghost use Rattle.jmodel.specs.declared.refusal.Refusal.TheVariants as refusal;
ghost use Rattle.script.specs.Seen.{seen, items_seen, members_seen};
ghost use Rattle.script.specs.declared.texts.Fault.TheVariants as faults;

use crate::numbers::number_of;
use crate::tree::Tree;
use jmodel::{Halt, Refusal};
use json::{Invalid, Reader, Scratch, Token};
use std::alloc::{AllocError, AllocFailed, Global};

/// How deep lists and objects may nest.
const MOST_DEEP: usize = 127;

/// Why a text wasn't read.
#[derive(Clone, Copy, Drop)]
enum Fault {
    NotJson,
    NoMemory,
}

impl From<Invalid> for Fault {
    ghost use Rattle.script.specs.declared.texts.Fault.TheVariants.{NotJson};
    ghost use Rattle.std.specs.Prelude.{◌≡◌};

    ghost from_gives = { λ _ f. f ≡ NotJson };

    fn from(_: Invalid) -> Self {
        Fault::NotJson
    }
}

impl From<AllocError> for Fault {
    ghost use Rattle.script.specs.declared.texts.Fault.TheVariants.{NoMemory};
    ghost use Rattle.std.specs.Prelude.{◌≡◌};

    ghost from_gives = { λ _ f. f ≡ NoMemory };

    fn from(_: AllocError) -> Self {
        Fault::NoMemory
    }
}

impl<T: Drop> From<AllocFailed<T>> for Fault {
    ghost use Rattle.script.specs.declared.texts.Fault.TheVariants.{NoMemory};
    ghost use Rattle.std.specs.Prelude.{◌≡◌};

    ghost from_gives = { λ _ f. f ≡ NoMemory };

    fn from(_: AllocFailed<T>) -> Self {
        Fault::NoMemory
    }
}

/// Reads a value, in which lists and objects nest at most so deep.
#[cycle(read)]
fn read(alloc: Global, reader: &mut Reader<'_>, depth: usize) -> Result<Tree, Fault>
    ensures ok { IfOk result (λ v. converted of_json (value depth reader.old) ≡ Some (seen v, reader.new)) }
    ensures shorter { OnOk result (length reader.new < length reader.old) }
    ensures err { result ≡ Err faults.NotJson → converted of_json (value depth reader.old) ≡ None }
{
    let token = reader.next().ok_or(Fault::NotJson)?;
    match token {
        Token::String(text) => Ok(Tree::Text(String::from_str(alloc, text)?)),
        Token::Number(text) => match number_of(text) {
            Some(number) => Ok(Tree::Number(number)),
            None => Err(Fault::NotJson),
        },
        Token::Bool(truth) => Ok(Tree::Truth(truth)),
        Token::Null => Ok(Tree::Null),
        Token::EndObject | Token::EndArray | Token::Key(_) | Token::Bad => Err(Fault::NotJson),
        Token::BeginArray => {
            if depth == 0 {
                return Err(Fault::NotJson);
            }
            Ok(Tree::List(read_items(alloc, reader, depth - 1)?))
        }
        Token::BeginObject => {
            if depth == 0 {
                return Err(Fault::NotJson);
            }
            Ok(Tree::Object(read_members(alloc, reader, depth - 1)?))
        }
    }
}

/// Reads the items of a list, and its end.
#[cycle(read)]
fn read_items(alloc: Global, reader: &mut Reader<'_>, depth: usize) -> Result<Vec<Tree>, Fault>
    ensures ok { IfOk result (λ v. converted of_items (items (value depth) (length reader.old) reader.old) ≡ Some (items_seen v.items, reader.new)) }
    ensures shorter { OnOk result (length reader.new < length reader.old) }
    ensures err { result ≡ Err faults.NotJson → converted of_items (items (value depth) (length reader.old) reader.old) ≡ None }
{
    let mut found = Vec::new(alloc);
    'items: while !reader.take_end_array() {
        let item = read(alloc, reader, depth)?;
        found.push(item)?;
    }
    Ok(found)
}

/// Reads the members of an object, and its end. There is room for two at first, which is what a call has.
#[cycle(read)]
fn read_members(
    alloc: Global,
    reader: &mut Reader<'_>,
    depth: usize,
) -> Result<Vec<(String, Tree)>, Fault>
    ensures ok { IfOk result (λ v. converted (λ ms. of_members ms no_members) (members (value depth) (length reader.old) reader.old)
        ≡ Some (members_seen v.items no_members, reader.new)) }
    ensures shorter { OnOk result (length reader.new < length reader.old) }
    ensures err { result ≡ Err faults.NotJson → converted (λ ms. of_members ms no_members) (members (value depth) (length reader.old) reader.old) ≡ None }
{
    let mut found = Vec::with_capacity(alloc, 2)?;
    'members: while let Some(name) = reader.next_key()? {
        let key = String::from_str(alloc, name)?;
        let member = read(alloc, reader, depth)?;
        found.push((key, member))?;
    }
    Ok(found)
}

/// Reads a text, which is one value.
fn read_whole(alloc: Global, text: &str) -> Result<Tree, Fault>
    ensures ok { IfOk result (λ v. read_text text.now ≡ Some (seen v)) }
    ensures err { result ≡ Err faults.NotJson → read_text text.now ≡ None }
{
    let mut scratch = Scratch::new(alloc);
    let mut reader = Reader::new(text, &mut scratch)?;
    let value = read(alloc, &mut reader, MOST_DEEP)?;
    if reader.next().is_some() {
        return Err(Fault::NotJson);
    }
    Ok(value)
}

/// The value that bytes are the text of. Refused with `NotJson`.
pub fn tree_of(alloc: Global, bytes: &[u8]) -> Result<Tree, Halt>
    ensures ok { IfOk result (λ v. IsUtf8 bytes.now × (read_text bytes.now ≡ Some (seen v))) }
    ensures err { (r : Why) → result ≡ Err (halts.Refused r) → (r ≡ refusal.NotJson) × (IsUtf8 bytes.now → read_text bytes.now ≡ None) }
{
    let Ok(text) = std::str::from_utf8(bytes) else {
        return Err(Halt::Refused(Refusal::NotJson));
    };
    match read_whole(alloc, text) {
        Ok(value) => Ok(value),
        Err(Fault::NotJson) => Err(Halt::Refused(Refusal::NotJson)),
        Err(Fault::NoMemory) => Err(Halt::NoMemory),
    }
}
