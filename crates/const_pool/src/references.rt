//! What the entries of a pool name (JVM Specification, Java SE 7, section 4.4). A long text may be named many times, so
//! each is judged once.
ghost use Rattle.std.specs.Prelude.{◌≡◌, ℕ, ◌+◌, ◌-◌, Bool, if◌then◌else◌, List, ◌++◌, length, drop, Ok, IfOk};
ghost use Rattle.std.specs.List.{flat_map};
ghost use Rattle.jmodel.specs.format.ClassFile.{Pool as Form, u2, constant as spelled, constants as spelled_all};
ghost use Rattle.jmodel.specs.format.Reading.{Gives};
ghost use Rattle.jmodel.specs.format.PoolReading.{want_descriptor as wanted, member_fits as member, name_fits as name_of, pair_fits as pair, text_fits as text, constant_fits as constant, all_fit as all, pool_at};
ghost use Rattle.jmodel.specs.format.DescriptorReading.{is_field_descriptor as is_field, is_method_descriptor as is_method};
ghost use Rattle.jmodel.specs.format.ClassRules.{IsPool};
ghost use Rattle.const_pool.specs.Uses.{use_of, uses_of, use_at};

use crate::constants::entries_at;
use crate::descriptor::{is_array_name, is_field_descriptor, is_method_descriptor};
use crate::fields::u2_at;
use crate::pool::Pool;
use jmodel::{Constant, Halt, Refusal};
use std::alloc::{AllocError, Global};
use std::marker::Model;

/// For each entry of a pool whether it is a field descriptor, and whether it is a method descriptor.
#[derive(Drop)]
pub struct Descriptors {
    uses: Vec<(bool, bool)>,
}

impl Model for Descriptors {
    ghost use Rattle.std.specs.Prelude.{List, Bool};

    ghost Value = { List (Bool × Bool) };

    ghost view = { λ d. d.uses.items };
}

fn use_of_entry(entry: &Constant) -> (bool, bool)
    ensures { result ≡ use_of entry.now }
{
    match entry {
        Constant::Utf8(text) => (
            is_field_descriptor(text.as_slice()),
            is_method_descriptor(text.as_slice()),
        ),
        _ => (false, false),
    }
}

impl Descriptors {
    /// Judges each text of the pool once.
    pub fn of(alloc: Global, pool: &Pool) -> Result<Self, AllocError>
        ensures { IfOk result (λ d. d ≡ uses_of pool.now) }
    {
        let mut uses = Vec::new(alloc);
        for entry in pool.entries() {
            uses.push(use_of_entry(entry))?;
        }
        Ok(Descriptors { uses })
    }

    fn use_at(&self, i: u16) -> (bool, bool)
        ensures { result ≡ use_at self.now i }
    {
        if i == 0 {
            return (false, false);
        }
        match self.uses.as_slice().get(i as usize - 1) {
            Some(uses) => *uses,
            None => (false, false),
        }
    }

    /// Whether the index is that of a field descriptor. Takes no memory.
    pub fn is_field(&self, i: u16) -> bool
        ensures { result ≡ (use_at self.now i).0 }
    {
        self.use_at(i).0
    }

    /// Whether the index is that of a method descriptor. Takes no memory.
    pub fn is_method(&self, i: u16) -> bool
        ensures { result ≡ (use_at self.now i).1 }
    {
        self.use_at(i).1
    }
}

/// Refuses the descriptor of an index as BadDescriptor where it doesn't fit.
pub fn want_descriptor(fits: bool, i: u16) -> Result<(), Halt>
    ensures { Gives (λ x. x) result (wanted fits i) }
{
    if fits {
        return Ok(());
    }
    Err(Halt::Refused(Refusal::BadDescriptor(i as i64)))
}

// A class, and a NameAndType for a field or a method.
#[tactic(auto, using(crate::proofs::Uses::uses), unfolding(jmodel::specs::format::PoolReading::member_fits))]
fn member_fits(
    pool: &Pool,
    known: &Descriptors,
    is_method_wanted: bool,
    class: u16,
    pair: u16,
) -> Result<(), Halt>
    requires { known.now ≡ uses_of pool.now }
    ensures { Gives (λ x. x) result (member pool.now (if is_method_wanted then is_method else is_field) class pair) }
{
    let _ = pool.class_at(class)?;
    let (name, descriptor) = pool.name_and_type_at(pair)?;
    if pool.utf8(name).is_none() || pool.utf8(descriptor).is_none() {
        return Ok(());
    }
    if is_method_wanted {
        want_descriptor(known.is_method(descriptor), descriptor)
    } else {
        want_descriptor(known.is_field(descriptor), descriptor)
    }
}

#[tactic(auto, using(crate::proofs::Uses::read_uses), unfolding(jmodel::specs::format::PoolReading::name_fits))]
fn name_fits(pool: &Pool, known: &Descriptors, name: u16) -> Result<(), Halt>
    requires { known.now ≡ uses_of pool.now }
    ensures { Gives (λ x. x) result (name_of pool.now name) }
{
    let text = pool.utf8_at(name)?;
    if !is_array_name(text.as_slice()) {
        return Ok(());
    }
    want_descriptor(known.is_field(name), name)
}

#[tactic(auto, using(crate::proofs::Uses::read_uses), unfolding(jmodel::specs::format::PoolReading::pair_fits))]
fn pair_fits(pool: &Pool, known: &Descriptors, name: u16, descriptor: u16) -> Result<(), Halt>
    requires { known.now ≡ uses_of pool.now }
    ensures { Gives (λ x. x) result (pair pool.now name descriptor) }
{
    let _ = pool.utf8_at(name)?;
    let _ = pool.utf8_at(descriptor)?;
    let fits = known.is_field(descriptor) || known.is_method(descriptor);
    want_descriptor(fits, descriptor)
}

#[tactic(auto, unfolding(jmodel::specs::format::PoolReading::text_fits))]
fn text_fits(pool: &Pool, i: u16) -> Result<(), Halt>
    ensures { Gives (λ x. x) result (text pool.now i) }
{
    let _ = pool.utf8_at(i)?;
    Ok(())
}

fn constant_fits(pool: &Pool, known: &Descriptors, entry: &Constant) -> Result<(), Halt>
    requires { known.now ≡ uses_of pool.now }
    ensures { Gives (λ x. x) result (constant pool.now entry.now) }
{
    match entry {
        Constant::Class(name) => name_fits(pool, known, *name),
        Constant::Text(i) => text_fits(pool, *i),
        Constant::Field { class, pair } => member_fits(pool, known, false, *class, *pair),
        Constant::Method { class, pair } => member_fits(pool, known, true, *class, *pair),
        Constant::InterfaceMethod { class, pair } => member_fits(pool, known, true, *class, *pair),
        Constant::NameAndType { name, descriptor } => pair_fits(pool, known, *name, *descriptor),
        _ => Ok(()),
    }
}

/// Whether all that the entries name is there and of the right kind: the first fault by index, of BadIndex, WrongKind and
/// BadDescriptor.
pub fn all_fit(alloc: Global, pool: &Pool) -> Result<(), Halt>
    ensures { Gives (λ x. x) result (all pool.now pool.now) }
{
    let known = Descriptors::of(alloc, pool)?;
    for entry in pool.entries() {
        constant_fits(pool, &known, entry)?;
    }
    Ok(())
}

#[tactic(auto, unfolding(jmodel::specs::format::PoolReading::pool_at))]
fn read_pool(alloc: Global, bytes: &[u8], at: usize) -> Result<(Pool, usize), Halt>
    ensures { Gives (λ x. x) result (pool_at bytes.now at) }
{
    let (count, start) = u2_at(bytes, at)?;
    let (entries, after) = entries_at(alloc, bytes, count.saturating_sub(1), start)?;
    let mut pool = Pool::from_entries(entries);
    all_fit(alloc, &pool)?;
    pool.keep_places()?;
    Ok((pool, after))
}

impl Pool {
    /// Reads a pool that begins with its count at `at`, and gives the place after it. First the entries are read from the
    /// front (Truncated, BadTag, BadUtf8 at an offset), then what they name is looked at by entry (BadIndex, WrongKind,
    /// BadDescriptor with an index).
    pub fn read(alloc: Global, bytes: &[u8], at: usize) -> Result<(Pool, usize), Halt>
        // What is read is a pool that keeps the rules, spelled by the bytes behind its count, which is 0 or 1 for no entries.
        ensures rules { IfOk result (λ x. IsPool x.0) }
        ensures found { IfOk result (λ x. (count : ℕ) × (length x.0 ≡ count - 1) × (drop at bytes.now ≡ (u2 count ++ flat_map spelled x.0) ++ drop x.1 bytes.now) × (x.1 ≡ at + length (u2 count ++ flat_map spelled x.0))) }
        // Each pool that the bytes spell, whatever follows it, is read, unless memory runs out.
        ensures only { (p : Form) (rest : List ℕ) → IsPool p → drop at bytes.now ≡ spelled_all p ++ rest → Gives (λ x. x) result (Ok (p, at + length (spelled_all p))) }
        // Which pool it is, or which fault is the first.
        ensures exact { Gives (λ x. x) result (pool_at bytes.now at) }
    {
        read_pool(alloc, bytes, at)
    }
}
