//! The numbers by which calls over objects find their methods.
ghost use Rattle.std.specs.Prelude.{◌≡◌, ◌&&◌, ℕ, List, map, nat_eq, position, false, IfOk, OnOk, if◌then◌else◌};
ghost use Rattle.std.specs.Ordering.{nat_cmp};
ghost use Rattle.std.specs.BTreeMap.{get};
ghost use Rattle.objects.specs.semantics.Program.{Program as JProgram};
ghost use Rattle.hierarchy.specs.Names.{AreFirst, number_of};
ghost use Rattle.hierarchy.specs.Numbers.{or_number};
ghost use Rattle.hierarchy.specs.Selecting.{class_key, group_key, place_in, is_place, first_at, numbers_upward, first_upward as upward};
ghost use Rattle.hierarchy.specs.Selects.{first_for, Selects};

use crate::names::Numbers;
use crate::program::Method;
use crate::row::Row;
use jmodel::NoMemory;
use jmodel::bytes::Bytes;
use std::alloc::{AllocError, Global};
use std::collections::BTreeMap;

/// A class has the number of the first method that it declares. A group has all methods of one name and descriptor, and the number of the
/// first of them.
pub(crate) struct Selection {
    /// For each type the numbers of its class and of those above it, the nearest first, without those that declare no method.
    classes: Vec<Vec<usize>>,
    /// For each method the number of its group.
    groups: Vec<Option<usize>>,
    /// Under a group and then under a class the first method of the group that the class declares and that calls may select.
    firsts: BTreeMap<usize, BTreeMap<usize, usize>>,
}

impl Drop for Selection {
    fn drop(self) {
        let Self {
            classes: _,
            groups: _,
            firsts: _,
        } = self;
    }
}

// The numbers of the classes of methods.
fn class_numbers<'a>(alloc: Global, methods: &'a [Method]) -> Result<Numbers<'a>, NoMemory>
    ensures { IfOk result (λ n. AreFirst n (map class_key methods.now)) }
{
    let mut numbers = Numbers::new(alloc);
    for (number, method) in methods.iter().enumerate() {
        numbers.note(method.name().class.as_slice(), b"", b"", number)?;
    }
    Ok(numbers)
}

// The numbers of the groups of methods.
fn group_numbers<'a>(alloc: Global, methods: &'a [Method]) -> Result<Numbers<'a>, NoMemory>
    ensures { IfOk result (λ n. AreFirst n (map group_key methods.now)) }
{
    let mut numbers = Numbers::new(alloc);
    for (number, method) in methods.iter().enumerate() {
        let name = method.name();
        numbers.note(
            b"",
            name.name.as_slice(),
            name.descriptor.as_slice(),
            number,
        )?;
    }
    Ok(numbers)
}

// The number of a method's group.
fn group_of<'a>(groups: &Numbers<'a>, method: &'a Method) -> Option<usize>
    ensures { result ≡ number_of groups.now (group_key method.now) }
{
    let name = method.name();
    groups.get(b"", name.name.as_slice(), name.descriptor.as_slice())
}

// The numbers of the group and of the class of a method that calls may select.
fn place_of<'a>(
    groups: &Numbers<'a>,
    classes: &Numbers<'a>,
    method: &'a Method,
) -> Option<(usize, usize)>
    ensures { result ≡ place_in groups.now classes.now method.now }
{
    if method.is_selectable() {
        let group = group_of(groups, method)?;
        let class = classes.get(method.name().class.as_slice(), b"", b"")?;
        Some((group, class))
    } else {
        None
    }
}

// Notes a number under a class, unless that has one.
fn note(numbers: &mut BTreeMap<usize, usize>, class: usize, number: usize) -> Result<(), NoMemory>
    ensures { OnOk result ((c : ℕ) → get nat_cmp numbers.new c ≡ (if nat_eq c class then or_number (get nat_cmp numbers.old c) number else get nat_cmp numbers.old c)) }
{
    if numbers.get(&class).is_none() {
        numbers.insert(class, number)?;
    }
    Ok(())
}

// Takes out what stands under a group.
fn taken(
    alloc: Global,
    firsts: &mut BTreeMap<usize, BTreeMap<usize, usize>>,
    group: usize,
) -> BTreeMap<usize, usize>
    ensures under { (c : ℕ) → get nat_cmp result c ≡ first_at firsts.old group c }
    ensures others { (g : ℕ) → nat_eq g group ≡ false → get nat_cmp firsts.new g ≡ get nat_cmp firsts.old g }
{
    match firsts.remove(&group) {
        Some(numbers) => numbers,
        None => BTreeMap::new(alloc),
    }
}

// Notes a number under a group and a class, unless they have one.
fn note_under(
    alloc: Global,
    firsts: &mut BTreeMap<usize, BTreeMap<usize, usize>>,
    group: usize,
    class: usize,
    number: usize,
) -> Result<(), NoMemory>
    ensures { OnOk result ((g c : ℕ) → first_at firsts.new g c ≡ (if nat_eq g group && nat_eq c class then or_number (first_at firsts.old g c) number else first_at firsts.old g c)) }
{
    let mut numbers = taken(alloc, firsts, group);
    note(&mut numbers, class, number)?;
    firsts.insert(group, numbers)?;
    Ok(())
}

// The first methods of groups that classes declare.
fn firsts_of<'a>(
    alloc: Global,
    groups: &Numbers<'a>,
    classes: &Numbers<'a>,
    methods: &'a [Method],
) -> Result<BTreeMap<usize, BTreeMap<usize, usize>>, NoMemory>
    ensures { IfOk result (λ f. (g c : ℕ) → first_at f g c ≡ position (λ k. is_place (place_in groups.now classes.now k) g c) methods.now) }
{
    let mut firsts = BTreeMap::new(alloc);
    for (number, method) in methods.iter().enumerate() {
        if let Some((group, class)) = place_of(groups, classes, method) {
            note_under(alloc, &mut firsts, group, class, number)?;
        }
    }
    Ok(firsts)
}

// The numbers of the groups, for each method.
fn groups_of<'a>(
    alloc: Global,
    groups: &Numbers<'a>,
    methods: &'a [Method],
) -> Result<Vec<Option<usize>>, AllocError>
    ensures { IfOk result (λ v. v.items ≡ map (λ k. number_of groups.now (group_key k)) methods.now) }
{
    let mut numbers = Vec::new(alloc);
    for method in methods {
        numbers.push(group_of(groups, method))?;
    }
    Ok(numbers)
}

// The numbers of the classes of a lineage.
fn lineage_numbers<'a>(
    alloc: Global,
    classes: &Numbers<'a>,
    lineage: &'a [Bytes],
) -> Result<Vec<usize>, AllocError>
    ensures { IfOk result (λ v. v.items ≡ numbers_upward classes.now lineage.now) }
{
    let mut numbers = Vec::new(alloc);
    for class in lineage {
        if let Some(number) = classes.get(class.as_slice(), b"", b"") {
            numbers.push(number)?;
        }
    }
    Ok(numbers)
}

// The numbers of the classes of each type.
fn classes_of<'a>(
    alloc: Global,
    classes: &Numbers<'a>,
    types: &'a [Row],
) -> Result<Vec<Vec<usize>>, AllocError>
    ensures { IfOk result (λ v. map (λ l. l.items) v.items ≡ map (λ r. numbers_upward classes.now r.lineage) types.now) }
{
    let mut numbers = Vec::new(alloc);
    for row in types {
        numbers.push(lineage_numbers(alloc, classes, row.lineage())?)?;
    }
    Ok(numbers)
}

// From a class upward the first number.
fn first_upward(numbers: &BTreeMap<usize, usize>, classes: &[usize]) -> Option<usize>
    ensures { result ≡ upward numbers.now classes.now }
{
    for class in classes {
        if let Some(found) = numbers.get(class) {
            return Some(*found);
        }
    }
    None
}

impl Selection {
    /// The numbers of a program of these types and methods.
    pub(crate) fn new(alloc: Global, types: &[Row], methods: &[Method]) -> Result<Self, NoMemory>
        ensures { IfOk result (λ s. (P : JProgram) → P.types ≡ types.now → P.methods ≡ methods.now → Selects s P) }
    {
        let classes = class_numbers(alloc, methods)?;
        Selection::under(alloc, &classes, types, methods)
    }

    // The numbers under those of the classes.
    fn under<'a>(
        alloc: Global,
        classes: &Numbers<'a>,
        types: &'a [Row],
        methods: &'a [Method],
    ) -> Result<Self, NoMemory>
        requires { AreFirst classes.now (map class_key methods.now) }
        ensures { IfOk result (λ s. (P : JProgram) → P.types ≡ types.now → P.methods ≡ methods.now → Selects s P) }
    {
        let groups = group_numbers(alloc, methods)?;
        Ok(Selection {
            classes: classes_of(alloc, classes, types)?,
            groups: groups_of(alloc, &groups, methods)?,
            firsts: firsts_of(alloc, &groups, classes, methods)?,
        })
    }

    /// The first method of a method's group from the class of a row upward.
    pub(crate) fn first(&self, row: usize, method: usize) -> Option<usize>
        ensures { result ≡ first_for self.now row method }
    {
        let group = self.groups.get(method).copied().flatten()?;
        let numbers = self.firsts.get(&group)?;
        let classes = self.classes.get(row)?;
        first_upward(numbers, classes.as_slice())
    }
}
