//! Which methods of classes are taken: those that are marked, the static initialisers, and those that taken ones call, by whatever chain.
ghost use Rattle.std.specs.Prelude.{◌≡◌, List, Bool, [], ◌∷◌, ◌++◌, length, map, filter, IfOk, OnOk, MatchOption};
ghost use Rattle.jmodel.specs.format.ClassFile.{ClassFile as ClassForm};
ghost use Rattle.objects.specs.linking.Code.{decoded as decoded_of};
ghost use Rattle.objects.specs.linking.Taken.{index_of as index_in, invoked as invoked_by, is_taken_by, is_named_by, code_calls, is_taken};
ghost use Rattle.objects.specs.linking.Classes.{Declared as DeclaredForm, methods_in as methods_of_classes};
ghost use Rattle.hierarchy.specs.Names.{named};
ghost use Rattle.hierarchy.specs.Search.{class_for as class_of_key, method_key as key_of_method, instrs_call, starting, is_found, IsGrouped, VisitsOf, Finds};

use crate::code::decoded_or_none;
use crate::declared::{Declared, methods_in};
use crate::names::{Groups, Names};
use crate::reference::{Reference, member_reference};
use crate::symbols::{own_name, text};
use crate::text::equal;
use bytecode::opcodes;
use const_pool::{ClassFile, Pool};
use jmodel::{Instr, NoMemory, Operands};
use std::alloc::Global;
use std::marker::Model;

/// The index of the pool that an instruction names.
pub fn index_of(operands: &Operands) -> Option<u16>
    ensures { result ≡ index_in operands.now }
{
    match operands {
        Operands::Pool(i) => Some(*i),
        Operands::Interface { index, .. } => Some(*index),
        _ => None,
    }
}

/// The method that an invoke names.
pub fn invoked<'a>(pool: &'a Pool, i: &Instr) -> Option<Reference<'a>>
    ensures { result ≡ invoked_by pool.now i.now }
{
    if !matches!(i.op, opcodes::INVOKEVIRTUAL..=opcodes::INVOKEINTERFACE) {
        return None;
    }
    member_reference(pool, index_of(&i.operands)?)
}

// The class under which calls of a method of this name find it: of a constructor its own, of any other method none.
fn class_for<'a>(name: &[u8], class: &'a [u8]) -> &'a [u8]
    ensures { result.now ≡ class_of_key name.now class.now }
{
    if equal(name, b"<init>") { class } else { b"" }
}

// What calls of a method have in common.
fn method_key<'a>(method: &Declared<'a>) -> Reference<'a>
    ensures { named result.class result.name result.descriptor ≡ key_of_method method.now }
{
    let class = method.class;
    let member = method.member;
    let name = text(&class.pool, member.name);
    let descriptor = text(&class.pool, member.descriptor);
    Reference::new(class_for(name, own_name(class)), name, descriptor)
}

// Puts a method into the group of its name, unless it is marked or a static initialiser.
fn group<'a>(
    alloc: Global,
    groups: &mut Groups<'a>,
    method: &'a Declared<'a>,
) -> Result<(), NoMemory>
    ensures { OnOk result ((ms : List DeclaredForm) → IsGrouped ms groups.old → IsGrouped (ms ++ method.now ∷ []) groups.new) }
{
    if method.is_root() {
        return Ok(());
    }
    let key = method_key(method);
    groups.push(alloc, key.class, key.name, key.descriptor, method)
}

// The methods that are neither marked nor static initialisers, by their names.
fn grouped<'a>(alloc: Global, methods: &'a [Declared<'a>]) -> Result<Groups<'a>, NoMemory>
    ensures { IfOk result (IsGrouped methods.now) }
{
    let mut groups = Groups::new(alloc);
    for method in methods {
        group(alloc, &mut groups, method)?;
    }
    Ok(groups)
}

// The names that were called so far, and the methods found whose calls are still to be looked at.
struct Search<'a> {
    called: Names<'a>,
    queue: Vec<&'a Declared<'a>>,
}

impl Drop for Search<'_> {
    fn drop(self) {
        let Self {
            called: _,
            queue: _,
        } = self;
    }
}

impl<'a> Model for Search<'a> {
    ghost use Rattle.std.specs.Prelude.{map};
    ghost use Rattle.hierarchy.specs.Search.{State};

    ghost Value = { State };

    ghost view = { λ s. record { called = s.called; queue = map (λ m. m.now) s.queue.items } };
}

impl<'a> Search<'a> {
    // The search at its start: the marked methods and the static initialisers are found.
    fn start(alloc: Global, methods: &'a [Declared<'a>]) -> Result<Self, NoMemory>
        ensures { IfOk result (λ s. s ≡ starting methods.now) }
    {
        let mut queue = Vec::new(alloc);
        for method in methods {
            if method.is_root() {
                queue.push(method)?;
            }
        }
        Ok(Search {
            called: Names::new(alloc),
            queue,
        })
    }

    // Takes a method whose calls are still to be looked at.
    fn next(&mut self) -> Option<&'a Declared<'a>>
        ensures called { self.new.called ≡ self.old.called }
        ensures queue { MatchOption result (self.old.queue ≡ []) (λ m. self.old.queue ≡ self.new.queue ++ m.now ∷ []) }
    {
        self.queue.pop()
    }

    // Finds the methods that a call takes, unless it was made before.
    fn find(&mut self, groups: &Groups<'a>, call: &Reference<'a>) -> Result<(), NoMemory>
        ensures { OnOk result (VisitsOf groups.now (is_taken_by call.now) self.old self.new) }
    {
        let Reference {
            class,
            name,
            descriptor,
        } = call;
        let class = class_for(name, class);
        if self.called.insert(class, name, descriptor)? {
            groups.append_to(class, name, descriptor, &mut self.queue)
        } else {
            Ok(())
        }
    }

    // Finds what an instruction calls.
    fn find_called(
        &mut self,
        pool: &'a Pool,
        groups: &Groups<'a>,
        i: &Instr,
    ) -> Result<(), NoMemory>
        ensures { OnOk result (VisitsOf groups.now (is_named_by (invoked_by pool.now i.now)) self.old self.new) }
    {
        match invoked(pool, i) {
            Some(found) => self.find(groups, &found),
            None => Ok(()),
        }
    }

    // Finds what instructions call.
    fn find_all(
        &mut self,
        pool: &'a Pool,
        groups: &Groups<'a>,
        instrs: &[Instr],
    ) -> Result<(), NoMemory>
        ensures { OnOk result (VisitsOf groups.now (instrs_call pool.now instrs.now) self.old self.new) }
    {
        for i in instrs {
            self.find_called(pool, groups, i)?;
        }
        Ok(())
    }

    // Finds what a method calls. Code with a fault calls nothing.
    fn visit(
        &mut self,
        alloc: Global,
        groups: &Groups<'a>,
        method: &'a Declared<'a>,
    ) -> Result<(), NoMemory>
        ensures { OnOk result (VisitsOf groups.now (code_calls method.now.class.pool (decoded_of method.now.class method.now.member)) self.old self.new) }
    {
        let class = method.class;
        let found = decoded_or_none(alloc, class, method.member)?;
        match found {
            Some(coded) => self.find_all(&class.pool, groups, coded.instrs.as_slice()),
            None => Ok(()),
        }
    }

    // The names that were called.
    fn into_called(self) -> Names<'a>
        ensures { result ≡ self.entry.called }
    {
        let Self { called, queue: _ } = self;
        called
    }
}

// What taken methods call.
fn called<'a>(alloc: Global, methods: &'a [Declared<'a>]) -> Result<Names<'a>, NoMemory>
    ensures { IfOk result (λ called. (cs : List ClassForm) → methods.now ≡ methods_of_classes cs → Finds cs called) }
{
    let groups = grouped(alloc, methods)?;
    let mut search = Search::start(alloc, methods)?;
    while let Some(method) = search.next() {
        search.visit(alloc, &groups, method)?;
    }
    Ok(search.into_called())
}

// Whether a method is marked or a static initialiser, or is called.
fn is_found<'a>(called: &Names<'a>, method: &Declared<'a>) -> bool
    ensures { result ≡ is_found called.now method.now }
{
    let key = method_key(method);
    method.is_root() || called.contains(key.class, key.name, key.descriptor)
}

// For each method whether it is found.
fn are_found<'a>(
    alloc: Global,
    called: &Names<'a>,
    methods: &'a [Declared<'a>],
) -> Result<Vec<bool>, NoMemory>
    ensures { IfOk result (λ v. v.items ≡ map (is_found called.now) methods.now) }
{
    let mut found = Vec::new(alloc);
    for method in methods {
        found.push(is_found(called, method))?;
    }
    Ok(found)
}

/// For each method of classes, where these are all of them, whether it is taken: whether it is marked as atomic or a static initialiser,
/// or a taken one calls it. Decodes the code of each taken method once.
pub fn are_taken_among<'a>(
    alloc: Global,
    methods: &'a [Declared<'a>],
) -> Result<Vec<bool>, NoMemory>
    ensures { IfOk result (λ v. (cs : List ClassForm) → methods.now ≡ methods_of_classes cs → v.items ≡ map (is_taken cs) methods.now) }
{
    let called = called(alloc, methods)?;
    are_found(alloc, &called, methods)
}

/// The methods that are taken, where it is known which are.
pub fn taken_among<'a>(
    alloc: Global,
    methods: &'a [Declared<'a>],
    taken: &[bool],
) -> Result<Vec<&'a Declared<'a>>, NoMemory>
    requires { length taken.now ≡ length methods.now }
    ensures { IfOk result (λ v. (p : DeclaredForm → Bool) → taken.now ≡ map p methods.now → map (λ m. m.now) v.items ≡ filter p methods.now) }
{
    let mut chosen = Vec::new(alloc);
    for (i, method) in methods.iter().enumerate() {
        if taken[i] {
            chosen.push(method)?;
        }
    }
    Ok(chosen)
}

/// For each method of classes, class by class and in the order of each file, whether it is taken: whether it is marked as atomic or a static
/// initialiser, or a taken one calls it. Decodes the code of each taken method once.
pub fn are_taken(alloc: Global, classes: &[&ClassFile]) -> Result<Vec<bool>, NoMemory>
    ensures { IfOk result (λ v. v.items ≡ map (is_taken (map (λ c. c.now) classes.now)) (methods_of_classes (map (λ c. c.now) classes.now))) }
{
    let methods = methods_in(alloc, classes)?;
    are_taken_among(alloc, methods.as_slice())
}
