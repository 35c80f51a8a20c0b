//! Which methods of rewritten classes their program has: those of the original, accessors, duplicates, and those of the helper of arrays.
ghost use Rattle.std.specs.Prelude.{◌≡◌, ◌≤◌, ◌-◌, ◌*◌, ◌++◌, [], ◌∷◌, true, false, length, map, filter, take, drop, bytes_eq, IfOk, OnOk};
ghost use Rattle.objects.specs.linking.Members.{own_name as name_of_class};
ghost use Rattle.objects.specs.semantics.Program.{Field as FieldForm};
ghost use Rattle.objects.specs.linking.Classes.{declared_in};
ghost use Rattle.objects.specs.rewriting.Relinking.{is_of, is_counted_old, old_members, duplicates_count, accessors_count, duplicate_members, accessor_members, is_helper as helper_class_of, all_old, all_accessors, all_duplicates, helper_members};
ghost use Rattle.linking.specs.Rewritten.{AreNames, CountMethods, CountFields, marked_members};

use crate::text::equal;
use const_pool::{ClassFile, Member};
use hierarchy::Program;
use hierarchy::declared::Declared;
use hierarchy::names::{Names, Numbers};
use hierarchy::symbols::own_name;
use jmodel::NoMemory;
use std::alloc::{AllocError, Global};
use std::marker::Model;

// The names of a program's methods.
fn method_names<'a>(alloc: Global, program: &'a Program) -> Result<Names<'a>, NoMemory>
    ensures { IfOk result (λ names. AreNames program.now names) }
{
    let mut names = Names::new(alloc);
    for method in program.methods() {
        let name = method.name();
        names.insert(
            name.class.as_slice(),
            name.name.as_slice(),
            name.descriptor.as_slice(),
        )?;
    }
    Ok(names)
}

// How many methods of a program each class has.
fn method_counts<'a>(alloc: Global, program: &'a Program) -> Result<Numbers<'a>, NoMemory>
    ensures { IfOk result (λ counts. CountMethods program.now counts) }
{
    let mut counts = Numbers::new(alloc);
    for method in program.methods() {
        let name = method.name();
        counts.count(name.class.as_slice(), b"", b"")?;
    }
    Ok(counts)
}

// How many fields of a program each class has.
fn field_counts<'a>(alloc: Global, program: &'a Program) -> Result<Numbers<'a>, NoMemory>
    ensures { IfOk result (λ counts. CountFields program.now counts) }
{
    let mut counts = Numbers::new(alloc);
    for field in program.fields() {
        counts.count(field.class.as_slice(), b"", b"")?;
    }
    Ok(counts)
}

// A program, the names of its methods, and how many methods and fields each class has in it.
struct Counts<'a> {
    program: &'a Program,
    names: Names<'a>,
    methods: Numbers<'a>,
    fields: Numbers<'a>,
}

impl Drop for Counts<'_> {
    fn drop(self) {
        let Self {
            program: _,
            names: _,
            methods: _,
            fields: _,
        } = self;
    }
}

impl<'a> Model for Counts<'a> {
    ghost use Rattle.objects.specs.semantics.Program.{Program as Form};
    ghost use Rattle.linking.specs.Rewritten.{AreCounts};

    ghost Value = { Form };

    ghost view = { λ k. k.program.now };

    ghost invariant = { λ k. AreCounts k.program.now k.names k.methods k.fields };
}

impl<'a> Counts<'a> {
    fn new(alloc: Global, program: &'a Program) -> Result<Self, NoMemory>
        ensures { IfOk result (λ k. k ≡ program.now) }
    {
        Ok(Counts {
            program,
            names: method_names(alloc, program)?,
            methods: method_counts(alloc, program)?,
            fields: field_counts(alloc, program)?,
        })
    }

    // Whether a method is one of the program's, by its name.
    fn has(&self, method: &Declared<'a>) -> bool
        ensures { result ≡ is_of self.now method.now }
    {
        let name = method.reference();
        self.names.contains(name.class, name.name, name.descriptor)
    }

    // How many duplicates a rewritten class has: one for each method of the program's.
    fn duplicates_of(&self, class: &'a ClassFile) -> usize
        ensures { result ≡ duplicates_count self.now class.now }
    {
        self.methods.get(own_name(class), b"", b"").unwrap_or(0)
    }

    // How many fields of the program's a class has.
    fn fields_in(&self, class: &'a ClassFile) -> usize
        ensures { result ≡ length (filter (λ (f : FieldForm). bytes_eq f.class (name_of_class class.now)) self.now.fields) }
    {
        self.fields.get(own_name(class), b"", b"").unwrap_or(0)
    }

    // How many accessors it has: two for each field of the program's.
    fn accessors_of(&self, class: &'a ClassFile) -> Result<usize, AllocError>
        ensures { IfOk result (λ n. n ≡ accessors_count self.now class.now) }
    {
        twice(self.fields_in(class))
    }
}

fn twice(count: usize) -> Result<usize, AllocError>
    ensures { IfOk result (λ n. n ≡ 2 * count) }
{
    count.checked_add(count).ok_or(AllocError)
}

// From a place on.
fn behind(members: &[Member], start: usize) -> &[Member]
    requires { start ≤ length members.now }
    ensures { result.now ≡ drop start members.now }
{
    &members[start..]
}

// So many at most.
#[tactic(auto, using(std::proofs::lemmas::List::take_min))]
fn first(members: &[Member], many: usize) -> &[Member]
    ensures { result.now ≡ take many members.now }
{
    &members[..many.min(members.len())]
}

// The last of a class's methods, so many.
fn last_methods(class: &ClassFile, many: usize) -> &[Member]
    ensures { declared_in class.now result.now ≡ drop (length class.now.methods - many) (declared_in class.now class.now.methods) }
{
    let all = class.methods.as_slice();
    let start = all.len().saturating_sub(many);
    behind(all, start)
}

// Before the last ones, so many, the last of the others.
fn middle_methods(class: &ClassFile, last: usize, many: usize) -> &[Member]
    ensures { declared_in class.now result.now ≡ take many (drop (length class.now.methods - last - many) (declared_in class.now class.now.methods)) }
{
    let all = class.methods.as_slice();
    let start = all.len().saturating_sub(last).saturating_sub(many);
    first(behind(all, start), many)
}

// Appends methods of a class, whose frames count or don't.
fn append<'a>(
    methods: &mut Vec<(Declared<'a>, bool)>,
    class: &'a ClassFile,
    members: &'a [Member],
    counted: bool,
) -> Result<(), AllocError>
    ensures { OnOk result (methods.new.items ≡ methods.old.items ++ map (λ k. (k, counted)) (declared_in class.now members.now)) }
{
    for member in members {
        methods.push((Declared { class, member }, counted))?;
    }
    Ok(())
}

// Appends the methods of a rewritten class that the original's program has. Frames of wrappers don't count.
fn append_old<'a>(
    methods: &mut Vec<(Declared<'a>, bool)>,
    counts: &Counts<'a>,
    class: &'a ClassFile,
) -> Result<(), AllocError>
    ensures { OnOk result (methods.new.items ≡ methods.old.items ++ map (λ k. (k, is_counted_old k)) (old_members counts.now class.now)) }
{
    for member in &class.methods {
        let method = Declared { class, member };
        if counts.has(&method) {
            let counted = !method.is_root();
            methods.push((method, counted))?;
        }
    }
    Ok(())
}

// Whether a class is the helper of arrays, by its name.
fn is_helper(class: &ClassFile) -> bool
    ensures { result ≡ helper_class_of class.now }
{
    equal(own_name(class), b"org/deuce/transaction/ArrayHelper")
}

// Methods of rewritten classes, each with whether its frames count: those that the original's program has, accessors and duplicates, of each kind class by
// class, and those of the helper of arrays.
#[derive(Drop)]
struct Kinds<'a> {
    originals: Vec<(Declared<'a>, bool)>,
    accessors: Vec<(Declared<'a>, bool)>,
    duplicates: Vec<(Declared<'a>, bool)>,
    helper: Vec<(Declared<'a>, bool)>,
}

impl<'a> Kinds<'a> {
    fn new(alloc: Global) -> Self
        ensures originals { result.originals.items ≡ [] }
        ensures accessors { result.accessors.items ≡ [] }
        ensures duplicates { result.duplicates.items ≡ [] }
        ensures helper { result.helper.items ≡ [] }
    {
        Kinds {
            originals: Vec::new(alloc),
            accessors: Vec::new(alloc),
            duplicates: Vec::new(alloc),
            helper: Vec::new(alloc),
        }
    }

    // Appends those of a rewritten class.
    fn append_rewritten(
        &mut self,
        counts: &Counts<'a>,
        class: &'a ClassFile,
    ) -> Result<(), AllocError>
        ensures originals { OnOk result (self.new.originals.items ≡ self.old.originals.items ++ map (λ k. (k, is_counted_old k)) (old_members counts.now class.now)) }
        ensures accessors { OnOk result (self.new.accessors.items ≡ self.old.accessors.items ++ map (λ k. (k, false)) (accessor_members counts.now class.now)) }
        ensures duplicates { OnOk result (self.new.duplicates.items ≡ self.old.duplicates.items ++ map (λ k. (k, true)) (duplicate_members counts.now class.now)) }
        ensures helper { OnOk result (self.new.helper.items ≡ self.old.helper.items) }
    {
        let many = counts.duplicates_of(class);
        let accessors = middle_methods(class, many, counts.accessors_of(class)?);
        append_old(&mut self.originals, counts, class)?;
        append(&mut self.accessors, class, accessors, false)?;
        append(&mut self.duplicates, class, last_methods(class, many), true)
    }

    // Appends those of a class.
    fn append(&mut self, counts: &Counts<'a>, class: &'a ClassFile) -> Result<(), AllocError>
        ensures originals { OnOk result (self.new.originals.items ≡ self.old.originals.items ++ map (λ k. (k, is_counted_old k)) (all_old counts.now (class.now ∷ []))) }
        ensures accessors { OnOk result (self.new.accessors.items ≡ self.old.accessors.items ++ map (λ k. (k, false)) (all_accessors counts.now (class.now ∷ []))) }
        ensures duplicates { OnOk result (self.new.duplicates.items ≡ self.old.duplicates.items ++ map (λ k. (k, true)) (all_duplicates counts.now (class.now ∷ []))) }
        ensures helper { OnOk result (self.new.helper.items ≡ self.old.helper.items ++ map (λ k. (k, false)) (helper_members (class.now ∷ []))) }
    {
        if is_helper(class) {
            append(&mut self.helper, class, class.methods.as_slice(), false)
        } else {
            self.append_rewritten(counts, class)
        }
    }

    // All of them, one kind after the other.
    fn all(self) -> Result<Vec<(Declared<'a>, bool)>, AllocError>
        ensures { IfOk result (λ v. v.items ≡ self.entry.originals.items ++ self.entry.accessors.items ++ self.entry.duplicates.items ++ self.entry.helper.items) }
    {
        let mut all = self.originals;
        let mut accessors = self.accessors;
        let mut duplicates = self.duplicates;
        let mut helper = self.helper;
        all.append(&mut accessors)?;
        all.append(&mut duplicates)?;
        all.append(&mut helper)?;
        Ok(all)
    }
}

// The methods of rewritten classes by their kinds.
fn kinds_of<'a>(
    alloc: Global,
    classes: &[&'a ClassFile],
    original: &'a Program,
) -> Result<Kinds<'a>, NoMemory>
    ensures originals { IfOk result (λ m. m.originals.items ≡ map (λ k. (k, is_counted_old k)) (all_old original.now (map (λ c. c.now) classes.now))) }
    ensures accessors { IfOk result (λ m. m.accessors.items ≡ map (λ k. (k, false)) (all_accessors original.now (map (λ c. c.now) classes.now))) }
    ensures duplicates { IfOk result (λ m. m.duplicates.items ≡ map (λ k. (k, true)) (all_duplicates original.now (map (λ c. c.now) classes.now))) }
    ensures helper { IfOk result (λ m. m.helper.items ≡ map (λ k. (k, false)) (helper_members (map (λ c. c.now) classes.now))) }
{
    let counts = Counts::new(alloc, original)?;
    let mut methods = Kinds::new(alloc);
    for class in classes {
        methods.append(&counts, class)?;
    }
    Ok(methods)
}

/// The methods of rewritten classes that their program has, over that of their original, in the order of their numbers; and whether the frames of each
/// count.
pub fn rewritten_members<'a>(
    alloc: Global,
    classes: &[&'a ClassFile],
    original: &'a Program,
) -> Result<Vec<(Declared<'a>, bool)>, NoMemory>
    ensures { IfOk result (λ v. v.items ≡ marked_members original.now (map (λ c. c.now) classes.now)) }
{
    let kinds = kinds_of(alloc, classes, original)?;
    Ok(kinds.all()?)
}
