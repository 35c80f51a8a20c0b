//! Where the names of fields and methods lead, among the classes of a folder (JVM Specification, Java SE 7, sections 5.4.3.2 to 5.4.3.4).
ghost use Rattle.std.specs.Prelude.{◌≡◌, ◌&&◌, map, bytes_eq, if◌then◌else◌, slice_get, option_map, option_and_then, IfOk, OnOk};
ghost use Rattle.std.specs.List.{list_any};
ghost use Rattle.jmodel.specs.format.Pool.{MemberName};
ghost use Rattle.objects.specs.linking.Members.{is_member, own_name as name_of_class};
ghost use Rattle.objects.specs.linking.Superclasses.{lineage};
ghost use Rattle.objects.specs.linking.Resolution.{is_private as private_member, is_abstract_member as abstract_member, resolved_field as field_of_name, resolved_method as method_of_name, is_properly_above as properly_above, selected_from as selected_of, from_above as method_from_above, special_method as method_of_special_call};
ghost use Rattle.hierarchy.specs.Names.{number_of};
ghost use Rattle.hierarchy.specs.Numbers.{or_number};
ghost use Rattle.resolution.specs.Ways.{first_own};
ghost use Rattle.resolution.specs.Resolving.{member_key, HasFirst, AreFirsts, any_member, may_run as may_be_run, own_field as field_at, own_method as method_at, own_selected as selected_at};

use crate::text::equal;
use crate::ways::Ways;
use const_pool::{ClassFile, Member, Pool};
use hierarchy::declared::Declared;
use hierarchy::names::Numbers;
use hierarchy::places::Places;
use hierarchy::reference::Reference;
use hierarchy::symbols::{is_static, own_name, super_name};
use jmodel::NoMemory;
use std::alloc::Global;
use std::marker::Model;

/// Whether a member is private, by the flag 0002.
pub fn is_private(member: &Member) -> bool
    ensures { result ≡ private_member member.now }
{
    member.flags & 2 != 0
}

/// Whether a member is abstract, by the flag 0400.
pub fn is_abstract(member: &Member) -> bool
    ensures { result ≡ abstract_member member.now }
{
    member.flags & 0x400 != 0
}

// Whether a class's own method may run for calls by name: it is neither private nor static.
fn may_run(method: &Member) -> bool
    ensures { result ≡ may_be_run method.now }
{
    !(is_private(method) || is_static(method))
}

// Notes the number of a member under its name and descriptor, where it has both and these have none.
fn note<'a>(
    numbers: &mut Numbers<'a>,
    pool: &'a Pool,
    member: &Member,
    number: usize,
) -> Result<(), NoMemory>
    ensures { OnOk result ((n : MemberName) → number_of numbers.new (member_key n) ≡ (if is_member pool.now n.name n.descriptor member.now then or_number (number_of numbers.old (member_key n)) number else number_of numbers.old (member_key n))) }
{
    let Some(name) = pool.utf8(member.name) else {
        return Ok(());
    };
    let Some(descriptor) = pool.utf8(member.descriptor) else {
        return Ok(());
    };
    numbers.note(b"", name.as_slice(), descriptor.as_slice(), number)?;
    Ok(())
}

// The numbers of the first members of each name and descriptor.
fn numbers_of<'a>(
    alloc: Global,
    pool: &'a Pool,
    members: &[Member],
) -> Result<Numbers<'a>, NoMemory>
    ensures { IfOk result (λ numbers. HasFirst any_member pool.now members.now numbers) }
{
    let mut numbers = Numbers::new(alloc);
    for (number, member) in members.iter().enumerate() {
        note(&mut numbers, pool, member, number)?;
    }
    Ok(numbers)
}

// Notes the number of a method so, where it may run for calls by name.
fn note_selected<'a>(
    numbers: &mut Numbers<'a>,
    pool: &'a Pool,
    method: &Member,
    number: usize,
) -> Result<(), NoMemory>
    ensures { OnOk result ((n : MemberName) → number_of numbers.new (member_key n) ≡ (if is_member pool.now n.name n.descriptor method.now && may_be_run method.now then or_number (number_of numbers.old (member_key n)) number else number_of numbers.old (member_key n))) }
{
    if !may_run(method) {
        return Ok(());
    }
    note(numbers, pool, method, number)?;
    Ok(())
}

// The numbers of the first methods of each name and descriptor that may run for calls by name.
fn numbers_of_selected<'a>(
    alloc: Global,
    pool: &'a Pool,
    methods: &[Member],
) -> Result<Numbers<'a>, NoMemory>
    ensures { IfOk result (λ numbers. HasFirst may_be_run pool.now methods.now numbers) }
{
    let mut numbers = Numbers::new(alloc);
    for (number, method) in methods.iter().enumerate() {
        note_selected(&mut numbers, pool, method, number)?;
    }
    Ok(numbers)
}

// The fields of classes by their names.
fn fields_of<'a>(alloc: Global, classes: &[&'a ClassFile]) -> Result<Vec<Numbers<'a>>, NoMemory>
    ensures { IfOk result (λ v. AreFirsts any_member (λ c. c.fields) (map (λ c. c.now) classes.now) v.items) }
{
    let mut table = Vec::new(alloc);
    for class in classes {
        table.push(numbers_of(alloc, &class.pool, class.fields.as_slice())?)?;
    }
    Ok(table)
}

// The methods of classes by their names.
fn methods_of<'a>(alloc: Global, classes: &[&'a ClassFile]) -> Result<Vec<Numbers<'a>>, NoMemory>
    ensures { IfOk result (λ v. AreFirsts any_member (λ c. c.methods) (map (λ c. c.now) classes.now) v.items) }
{
    let mut table = Vec::new(alloc);
    for class in classes {
        table.push(numbers_of(alloc, &class.pool, class.methods.as_slice())?)?;
    }
    Ok(table)
}

// The methods of classes that may run for calls by name.
fn selected_of_classes<'a>(
    alloc: Global,
    classes: &[&'a ClassFile],
) -> Result<Vec<Numbers<'a>>, NoMemory>
    ensures { IfOk result (λ v. AreFirsts may_be_run (λ c. c.methods) (map (λ c. c.now) classes.now) v.items) }
{
    let mut table = Vec::new(alloc);
    for class in classes {
        table.push(numbers_of_selected(alloc, &class.pool, class.methods.as_slice())?)?;
    }
    Ok(table)
}

// The number that a table has at a place for a name and a descriptor.
fn number_in<'a>(table: &[Numbers<'a>], place: usize, r: &Reference<'a>) -> Option<usize>
    ensures { result ≡ option_and_then (λ numbers. number_of numbers (member_key r.now)) (slice_get table.now place) }
{
    let numbers = table.get(place)?;
    numbers.get(b"", r.name, r.descriptor)
}

// The member of a number, if there is one, of a class.
fn member_at<'a>(
    class: &'a ClassFile,
    members: &'a [Member],
    number: Option<usize>,
) -> Option<Declared<'a>>
    ensures { result ≡ option_map (λ m. record { class = class.now; member = m }) (option_and_then (slice_get members.now) number) }
{
    let member = members.get(number?)?;
    Some(Declared { class, member })
}

/// Classes, with what stands above each and its members by their names.
pub struct Resolver<'a> {
    ways: Ways<'a>,
    fields: Vec<Numbers<'a>>,
    methods: Vec<Numbers<'a>>,
    selected: Vec<Numbers<'a>>,
}

impl Drop for Resolver<'_> {
    fn drop(self) {
        let Self {
            ways: _,
            fields: _,
            methods: _,
            selected: _,
        } = self;
    }
}

impl<'a> Model for Resolver<'a> {
    ghost use Rattle.std.specs.Prelude.{List};
    ghost use Rattle.jmodel.specs.format.ClassFile.{ClassFile as ClassForm};
    ghost use Rattle.resolution.specs.Resolving.{HasMembers};

    ghost Value = { List ClassForm };

    ghost view = { λ r. r.ways };

    ghost invariant = { λ r. HasMembers r.ways r.fields.items r.methods.items r.selected.items };
}

impl<'a> Resolver<'a> {
    /// Looks up what stands above each of classes and what each declares.
    pub fn new(alloc: Global, classes: &'a [&'a ClassFile]) -> Result<Self, NoMemory>
        ensures { IfOk result (λ r. r ≡ map (λ c. c.now) classes.now) }
    {
        Ok(Resolver {
            ways: Ways::new(alloc, classes)?,
            fields: fields_of(alloc, classes)?,
            methods: methods_of(alloc, classes)?,
            selected: selected_of_classes(alloc, classes)?,
        })
    }

    /// The classes, with what stands above each.
    pub fn ways(&self) -> &Ways<'a>
        ensures { result.now ≡ self.now }
    {
        &self.ways
    }

    /// The classes with their places.
    pub fn places(&self) -> &Places<'a>
        ensures { result.now ≡ self.now }
    {
        self.ways.places()
    }

    // The class at a place.
    fn class_at(&self, place: usize) -> Option<&'a ClassFile>
        ensures { option_map (λ c. c.now) result ≡ slice_get self.now place }
    {
        let places = self.ways.places();
        places.class_at(Some(place))
    }

    // The field of a name that the class at a place declares.
    fn own_field(&self, r: &Reference<'a>, place: usize) -> Option<Declared<'a>>
        ensures { result ≡ field_at self.now r.now place }
    {
        let class = self.class_at(place)?;
        let number = number_in(self.fields.as_slice(), place, r);
        member_at(class, class.fields.as_slice(), number)
    }

    // The method of a name that the class at a place declares.
    fn own_method(&self, r: &Reference<'a>, place: usize) -> Option<Declared<'a>>
        ensures { result ≡ method_at self.now r.now place }
    {
        let class = self.class_at(place)?;
        let number = number_in(self.methods.as_slice(), place, r);
        member_at(class, class.methods.as_slice(), number)
    }

    // The first method of a name that the class at a place declares and that may run for calls by name.
    fn own_selected(&self, r: &Reference<'a>, place: usize) -> Option<Declared<'a>>
        ensures { result ≡ selected_at self.now r.now place }
    {
        let class = self.class_at(place)?;
        let number = number_in(self.selected.as_slice(), place, r);
        member_at(class, class.methods.as_slice(), number)
    }

    // From place to place the first field of a name.
    fn first_field(&self, way: &[usize], r: &Reference<'a>) -> Option<Declared<'a>>
        ensures { result ≡ first_own (field_at self.now r.now) way.now }
    {
        for place in way {
            if let Some(found) = self.own_field(r, *place) {
                return Some(found);
            }
        }
        None
    }

    // The same of a method.
    fn first_method(&self, way: &[usize], r: &Reference<'a>) -> Option<Declared<'a>>
        ensures { result ≡ first_own (method_at self.now r.now) way.now }
    {
        for place in way {
            if let Some(found) = self.own_method(r, *place) {
                return Some(found);
            }
        }
        None
    }

    // The same of a method that may run for calls by name.
    fn first_selected(&self, way: &[usize], r: &Reference<'a>) -> Option<Declared<'a>>
        ensures { result ≡ first_own (selected_at self.now r.now) way.now }
    {
        for place in way {
            if let Some(found) = self.own_selected(r, *place) {
                return Some(found);
            }
        }
        None
    }

    /// The field that a name stands for (section 5.4.3.2): the first in the named class, then in its interfaces and above these, then in its superclass
    /// and above that. None where none of these declares it.
    pub fn resolved_field(&self, r: &Reference<'a>) -> Option<Declared<'a>>
        ensures { result ≡ field_of_name self.now r.now }
    {
        self.first_field(self.ways.ancestry(r.class), r)
    }

    /// The method that a name stands for (sections 5.4.3.3 and 5.4.3.4): the first in the named class and its superclasses, then in their interfaces and
    /// above these. None where none of these declares it.
    pub fn resolved_method(&self, r: &Reference<'a>) -> Option<Declared<'a>>
        ensures { result ≡ method_of_name self.now r.now }
    {
        self.first_method(self.ways.method_way(r.class), r)
    }

    /// The first method of a name, from a class upward by superclasses, that is neither private nor static: the one that runs for calls by name on
    /// objects of the class.
    pub fn selected_from(&self, class: &'a [u8], r: &Reference<'a>) -> Option<Declared<'a>>
        ensures { result ≡ selected_of self.now class.now r.now }
    {
        self.first_selected(self.ways.lineage(class), r)
    }

    /// Whether a class of a name stands at another or above it, by superclasses.
    pub fn is_in_lineage(&self, class: &'a [u8], name: &[u8]) -> bool
        ensures { result ≡ list_any (λ d. bytes_eq (name_of_class d) name.now) (lineage self.now class.now) }
    {
        self.ways.is_in_lineage(class, name)
    }

    /// Whether a class of this name stands above another by superclasses, and isn't that one.
    pub fn is_properly_above(&self, class: &'a ClassFile, name: &[u8]) -> bool
        ensures { result ≡ properly_above self.now class.now name.now }
    {
        !equal(own_name(class), name) && self.is_in_lineage(own_name(class), name)
    }

    // A private method runs itself; else the first from the superclass of the calling class upward.
    fn from_above(
        &self,
        class: &'a ClassFile,
        r: &Reference<'a>,
        found: Declared<'a>,
    ) -> Declared<'a>
        ensures { result ≡ method_from_above self.now class.now r.now found.entry }
    {
        if is_private(found.member) {
            return found;
        }
        match self.selected_from(super_name(class), r) {
            Some(selected) => selected,
            None => found,
        }
    }

    /// The method that invokespecial in a class runs for a name (section 6.5): what is selected from its superclass upward, where the name stands for
    /// a method, no constructor, of a class above; else what the name stands for. None where it stands for nothing.
    pub fn special_method(&self, class: &'a ClassFile, r: &Reference<'a>) -> Option<Declared<'a>>
        ensures { result ≡ method_of_special_call self.now class.now r.now }
    {
        let found = self.resolved_method(r)?;
        if !equal(r.name, b"<init>") && self.is_properly_above(class, own_name(found.class)) {
            Some(self.from_above(class, r, found))
        } else {
            Some(found)
        }
    }
}
