//! An index of a pool: where the first entry stands of each text, number, class, pair and reference. A pool may have entries
//! that mean the same under different indexes, so an entry goes by the first places of what it names.
ghost use Rattle.std.specs.Prelude.{◌≡◌, ℕ, List, ◌<◌, ◌≤◌, length, take, drop, OnOk, option_and_then, true};
ghost use Rattle.std.specs.List.{list_all};
ghost use Rattle.jmodel.specs.format.ClassFile.{Pool as Form};
ghost use Rattle.jmodel.specs.format.Pool.{both, utf8 as text_of};
ghost use Rattle.jmodel.specs.format.PoolAdding.{means_text, means_pair};
ghost use Rattle.const_pool.specs.Firsts.{first, or_at, text_known, key_known, has_key, text_place as text_place_of, class_place as class_place_of, pair_place as pair_place_of, key_of, key_for, name_key as name_key_of, member_key as member_key_of, stays_within as stays_within_of, KnowsNames};
ghost use Rattle.const_pool.specs.Indexed.{IsIndexed, class_known, pair_known, member_known};
ghost use Rattle.const_pool.specs.declared.keys.Key.{Key as Keyed};
ghost use Rattle.const_pool.specs.declared.keys.Key.TheVariants as made;

use crate::by_index::{class_name, entry as entry_at, text};
use crate::keys::{Key, Keys, Texts, note_key, note_text, place_of_key, place_of_text};
use crate::meanings::Kind;
use jmodel::Constant;
use std::alloc::{AllocError, Global};
use std::collections::BTreeMap;

/// The first places among the first `count` entries of a pool, counted from 0.
pub struct Index {
    count: usize,
    texts: Texts,
    names: Keys,
    members: Keys,
}

impl Drop for Index {
    fn drop(self) {
        let Self {
            count: _,
            texts: _,
            names: _,
            members: _,
        } = self;
    }
}

fn key(kind: Kind, class: u16, pair: u16) -> Key
    ensures { result ≡ key_for kind class pair }
{
    match kind {
        Kind::Field => Key::Field(class, pair),
        Kind::Method => Key::Method(class, pair),
        Kind::InterfaceMethod => Key::InterfaceMethod(class, pair),
    }
}

// ---- look-ups by names

fn place_of_class(texts: &Texts, names: &Keys, name: &[u8]) -> Option<u16>
    ensures { result ≡ option_and_then (λ j. key_known names.now (made.Class j)) (text_known texts.now name.now) }
{
    match place_of_text(texts, name) {
        Some(i) => place_of_key(names, Key::Class(i)),
        None => None,
    }
}

fn place_of_pair(texts: &Texts, names: &Keys, name: &[u8], descriptor: &[u8]) -> Option<u16>
    ensures { result ≡ option_and_then (key_known names.now) (key_of made.Pair (both (text_known texts.now name.now) (text_known texts.now descriptor.now))) }
{
    match (place_of_text(texts, name), place_of_text(texts, descriptor)) {
        (Some(i), Some(j)) => place_of_key(names, Key::Pair(i, j)),
        _ => None,
    }
}

// ---- keys of entries

fn text_place(texts: &Texts, entries: &[Constant], i: u16) -> Option<u16>
    requires { (t : List ℕ) → text_known texts.now t ≡ first (means_text t) entries.now }
    ensures { result ≡ text_place_of entries.now i }
{
    match text(entries, i) {
        Some(text) => place_of_text(texts, text.as_slice()),
        None => None,
    }
}

fn pair_key(texts: &Texts, entries: &[Constant], name: u16, descriptor: u16) -> Option<Key>
    requires { (t : List ℕ) → text_known texts.now t ≡ first (means_text t) entries.now }
    ensures { result ≡ key_of made.Pair (both (text_place_of entries.now name) (text_place_of entries.now descriptor)) }
{
    match (
        text_place(texts, entries, name),
        text_place(texts, entries, descriptor),
    ) {
        (Some(i), Some(j)) => Some(Key::Pair(i, j)),
        _ => None,
    }
}

fn class_key(texts: &Texts, entries: &[Constant], name: u16) -> Option<Key>
    requires { (t : List ℕ) → text_known texts.now t ≡ first (means_text t) entries.now }
    ensures { result ≡ name_key_of entries.now (Constant.Class name) }
{
    match text_place(texts, entries, name) {
        Some(i) => Some(Key::Class(i)),
        None => None,
    }
}

// The key of a number, a class or a pair.
fn name_key(texts: &Texts, entries: &[Constant], entry: &Constant) -> Option<Key>
    requires { (t : List ℕ) → text_known texts.now t ≡ first (means_text t) entries.now }
    ensures { result ≡ name_key_of entries.now entry.now }
{
    match entry {
        Constant::Integer(n) => Some(Key::Integer(*n)),
        Constant::Long(n) => Some(Key::Long(*n)),
        Constant::Class(name) => class_key(texts, entries, *name),
        Constant::NameAndType { name, descriptor } => pair_key(texts, entries, *name, *descriptor),
        _ => None,
    }
}

fn class_place(texts: &Texts, names: &Keys, entries: &[Constant], i: u16) -> Option<u16>
    requires { KnowsNames (text_known texts.now) (key_known names.now) entries.now }
    ensures { result ≡ class_place_of entries.now i }
{
    match class_name(entries, i) {
        Some(name) => place_of_class(texts, names, name.as_slice()),
        None => None,
    }
}

fn named_pair_place(
    texts: &Texts,
    names: &Keys,
    entries: &[Constant],
    name: u16,
    descriptor: u16,
) -> Option<u16>
    requires { KnowsNames (text_known texts.now) (key_known names.now) entries.now }
    ensures { result ≡ option_and_then (λ p. first (means_pair entries.now p.0 p.1) entries.now) (both (text_of entries.now name) (text_of entries.now descriptor)) }
{
    let name = text(entries, name)?;
    let descriptor = text(entries, descriptor)?;
    place_of_pair(texts, names, name.as_slice(), descriptor.as_slice())
}

fn pair_place(texts: &Texts, names: &Keys, entries: &[Constant], i: u16) -> Option<u16>
    requires { KnowsNames (text_known texts.now) (key_known names.now) entries.now }
    ensures { result ≡ pair_place_of entries.now i }
{
    match entry_at(entries, i) {
        Some(Constant::NameAndType { name, descriptor }) => {
            named_pair_place(texts, names, entries, *name, *descriptor)
        }
        _ => None,
    }
}

fn reference_key(
    kind: Kind,
    texts: &Texts,
    names: &Keys,
    entries: &[Constant],
    class: u16,
    pair: u16,
) -> Option<Key>
    requires { KnowsNames (text_known texts.now) (key_known names.now) entries.now }
    ensures { result ≡ key_of (key_for kind) (both (class_place_of entries.now class) (pair_place_of entries.now pair)) }
{
    match (
        class_place(texts, names, entries, class),
        pair_place(texts, names, entries, pair),
    ) {
        (Some(i), Some(j)) => Some(key(kind, i, j)),
        _ => None,
    }
}

// The key of a reference to a member.
fn member_key(texts: &Texts, names: &Keys, entries: &[Constant], entry: &Constant) -> Option<Key>
    requires { KnowsNames (text_known texts.now) (key_known names.now) entries.now }
    ensures { result ≡ member_key_of entries.now entry.now }
{
    match entry {
        Constant::Field { class, pair } => {
            reference_key(Kind::Field, texts, names, entries, *class, *pair)
        }
        Constant::Method { class, pair } => {
            reference_key(Kind::Method, texts, names, entries, *class, *pair)
        }
        Constant::InterfaceMethod { class, pair } => {
            reference_key(Kind::InterfaceMethod, texts, names, entries, *class, *pair)
        }
        _ => None,
    }
}

// Whether an entry names none behind an end.
fn stays_within(end: usize, entry: &Constant) -> bool
    ensures { result ≡ stays_within_of end entry.now }
{
    match entry {
        Constant::Class(name) => *name as usize <= end,
        Constant::NameAndType { name, descriptor } => {
            *name as usize <= end && *descriptor as usize <= end
        }
        Constant::Field { class, pair }
        | Constant::Method { class, pair }
        | Constant::InterfaceMethod { class, pair } => {
            *class as usize <= end && *pair as usize <= end
        }
        _ => true,
    }
}

fn all_within(end: usize, entries: &[Constant]) -> bool
    ensures { result ≡ list_all (stays_within_of end) entries.now }
{
    entries.iter().all(|entry| stays_within(end, entry))
}

// ---- the passes over the entries from a place on

fn note_entry(alloc: Global, texts: &mut Texts, entry: &Constant, at: u16) -> Result<(), AllocError>
    ensures { OnOk result ((t : List ℕ) → text_known texts.new t ≡ or_at (text_known texts.old t) (means_text t entry.now) at) }
{
    match entry {
        Constant::Utf8(text) => note_text(alloc, texts, text.as_slice(), at),
        _ => Ok(()),
    }
}

fn note_texts(
    alloc: Global,
    texts: &mut Texts,
    entries: &[Constant],
    from: usize,
) -> Result<(), AllocError>
    requires few { length entries.now < 65536 }
    requires from { from ≤ length entries.now }
    requires known { (t : List ℕ) → text_known texts.old t ≡ first (means_text t) (take from entries.now) }
    ensures { OnOk result ((t : List ℕ) → text_known texts.new t ≡ first (means_text t) entries.now) }
{
    for i in from..entries.len() {
        note_entry(alloc, texts, &entries[i], i as u16)?;
    }
    Ok(())
}

fn note_names(
    names: &mut Keys,
    texts: &Texts,
    entries: &[Constant],
    from: usize,
) -> Result<(), AllocError>
    requires few { length entries.now < 65536 }
    requires from { from ≤ length entries.now }
    requires texts { (t : List ℕ) → text_known texts.now t ≡ first (means_text t) entries.now }
    requires known { (k : Keyed) → key_known names.old k ≡ first (λ c. has_key k (name_key_of entries.now c)) (take from entries.now) }
    ensures { OnOk result ((k : Keyed) → key_known names.new k ≡ first (λ c. has_key k (name_key_of entries.now c)) entries.now) }
{
    for i in from..entries.len() {
        let key = name_key(texts, entries, &entries[i]);
        note_key(names, key, i as u16)?;
    }
    Ok(())
}

fn note_members(
    members: &mut Keys,
    texts: &Texts,
    names: &Keys,
    entries: &[Constant],
    from: usize,
) -> Result<(), AllocError>
    requires few { length entries.now < 65536 }
    requires from { from ≤ length entries.now }
    requires names { KnowsNames (text_known texts.now) (key_known names.now) entries.now }
    requires known { (k : Keyed) → key_known members.old k ≡ first (λ c. has_key k (member_key_of entries.now c)) (take from entries.now) }
    ensures { OnOk result ((k : Keyed) → key_known members.new k ≡ first (λ c. has_key k (member_key_of entries.now c)) entries.now) }
{
    for i in from..entries.len() {
        let key = member_key(texts, names, entries, &entries[i]);
        note_key(members, key, i as u16)?;
    }
    Ok(())
}

impl Index {
    /// An index that knows no entry. Takes no memory.
    pub fn new(alloc: Global) -> Self
        ensures { (pool : Form) → IsIndexed result pool }
    {
        Index {
            count: 0,
            texts: BTreeMap::new(alloc),
            names: BTreeMap::new(alloc),
            members: BTreeMap::new(alloc),
        }
    }

    /// How many entries it knows.
    pub fn count(&self) -> usize
        ensures { result ≡ self.now.count }
    {
        self.count
    }

    fn note(&mut self, alloc: Global, entries: &[Constant]) -> Result<(), AllocError>
        requires few { length entries.now < 65536 }
        requires indexed { IsIndexed self.old entries.now }
        requires closed { list_all (stays_within_of (length entries.now)) (drop self.old.count entries.now) ≡ true }
        ensures { OnOk result (IsIndexed self.new entries.now) }
    {
        let from = self.count;
        note_texts(alloc, &mut self.texts, entries, from)?;
        note_names(&mut self.names, &self.texts, entries, from)?;
        note_members(&mut self.members, &self.texts, &self.names, entries, from)?;
        self.count = entries.len();
        Ok(())
    }

    /// Takes in the entries behind those that it knows, unless one of them names an entry that isn't there. An error leaves
    /// it knowing none.
    pub fn extend(&mut self, alloc: Global, entries: &[Constant]) -> Result<(), AllocError>
        requires few { length entries.now < 65536 }
        requires indexed { IsIndexed self.old entries.now }
        ensures { IsIndexed self.new entries.now }
    {
        if !all_within(entries.len(), &entries[self.count..]) {
            return Ok(());
        }
        let outcome = self.note(alloc, entries);
        if outcome.is_err() {
            *self = Index::new(alloc);
        }
        outcome
    }

    /// The place of a text.
    pub fn text(&self, text: &[u8]) -> Option<u16>
        ensures { result ≡ text_known self.now.texts text.now }
    {
        place_of_text(&self.texts, text)
    }

    /// The place of a number.
    pub fn integer(&self, n: i32) -> Option<u16>
        ensures { result ≡ key_known self.now.names (made.Integer n) }
    {
        place_of_key(&self.names, Key::Integer(n))
    }

    /// The place of a number that takes two indexes.
    pub fn long(&self, n: i64) -> Option<u16>
        ensures { result ≡ key_known self.now.names (made.Long n) }
    {
        place_of_key(&self.names, Key::Long(n))
    }

    /// The place of a class.
    pub fn class(&self, name: &[u8]) -> Option<u16>
        ensures { result ≡ class_known self.now name.now }
    {
        place_of_class(&self.texts, &self.names, name)
    }

    /// The place of a name with a descriptor.
    pub fn pair(&self, name: &[u8], descriptor: &[u8]) -> Option<u16>
        ensures { result ≡ pair_known self.now name.now descriptor.now }
    {
        place_of_pair(&self.texts, &self.names, name, descriptor)
    }

    /// The place of a reference.
    pub fn member(&self, kind: Kind, class: &[u8], name: &[u8], descriptor: &[u8]) -> Option<u16>
        ensures { result ≡ member_known self.now kind class.now name.now descriptor.now }
    {
        match (self.class(class), self.pair(name, descriptor)) {
            (Some(i), Some(j)) => place_of_key(&self.members, key(kind, i, j)),
            _ => None,
        }
    }
}
