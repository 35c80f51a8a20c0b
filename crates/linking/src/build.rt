//! Programs of original classes (JVM Specification, Java SE 7, chapter 5).
ghost use Rattle.std.specs.Prelude.{◌≡◌, true, map, zip, Option, IfOk};
ghost use Rattle.objects.specs.linking.Code.{Coded as CodedForm};
ghost use Rattle.objects.specs.linking.Classes.{Declared as DeclaredForm, methods_in as methods_of_classes};
ghost use Rattle.objects.specs.linking.Each.{each};
ghost use Rattle.objects.specs.linking.Layout.{rows as all_rows, texts_of as all_texts, fields_of as all_fields};
ghost use Rattle.objects.specs.linking.Linking.{method_of as meaning, taken_methods, linked_methods as meanings_of_methods, program_with as program_of_code, coded_program as program_of_taken, constructs_fault as fault_of_constructs, linking, linking_files};
ghost use Rattle.objects.specs.linking.ClassesFaults.{supers_fault as fault_of_supers};
ghost use Rattle.hierarchy.specs.Built.{Builds, Links};
ghost use Rattle.linking.specs.Numbering.{symbols_among};

use crate::bases::Bases;
use crate::decoding::all_decoded;
use crate::layout::Layout;
use crate::method::method_of;
use crate::names::Names;
use crate::numbering::Numbering;
use crate::symbols::Symbols;
use const_pool::ClassFile;
use heap_layout::texts::text_places;
use hierarchy::code::Coded;
use hierarchy::declared::{Declared, methods_in};
use hierarchy::marks::marks_fault;
use hierarchy::member_faults::members_fault;
use hierarchy::symbols::own_name;
use hierarchy::taken::{are_taken_among, taken_among};
use hierarchy::{BuildEnd, Method, Program, in_order};
use jmodel::{NoMemory, Refusal};
use resolution::circles::supers_fault;
use resolution::constructs::constructs_fault;
use resolution::resolution::Resolver;
use resolution::ways::Ways;
use std::alloc::Global;

/// Classes among which names are sought, the parts of their program, and where the objects of static fields lie.
#[derive(Drop)]
pub struct Scope<'s, 'a> {
    pub names: &'s Names<'a>,
    pub numbering: &'s Numbering<'a>,
    pub bases: &'s Bases<'a>,
}

impl<'s, 'a> Scope<'s, 'a> {
    /// The symbols of one of the classes.
    pub fn symbols_of(&self, class: &'a ClassFile) -> Symbols<'s, 'a>
        ensures { result ≡ symbols_among self.now.names.now self.now.numbering.now self.now.bases.now class.now }
    {
        let bases = self.bases;
        Symbols {
            class,
            names: self.names,
            numbering: self.numbering,
            base: bases.base_in(own_name(class)),
        }
    }

    /// What a method means, with its instructions; its frames count or don't.
    pub fn method_of(
        &self,
        alloc: Global,
        counted: bool,
        method: &Declared<'a>,
        coded: &Option<Coded>,
    ) -> Result<Method, BuildEnd>
        ensures { Builds (λ m. m) result (meaning (symbols_among self.now.names.now self.now.numbering.now self.now.bases.now method.now.class) counted method.now.member coded.now) }
    {
        let symbols = self.symbols_of(method.class);
        method_of(alloc, &symbols, counted, method.member, coded)
    }
}

// What methods mean, each with its code, whose frames count.
fn methods_among<'a>(
    alloc: Global,
    scope: &Scope<'_, 'a>,
    methods: &[&Declared<'a>],
    coded: &[Option<Coded>],
) -> Result<Vec<Method>, BuildEnd>
    ensures { Builds (λ v. v.items) result (each (λ (p : DeclaredForm × Option CodedForm). meaning (symbols_among scope.now.names.now scope.now.numbering.now scope.now.bases.now p.0.class) true p.0.member p.1) (zip (map (λ m. m.now) methods.now) coded.now)) }
{
    let mut built = Vec::new(alloc);
    for (method, code) in methods.iter().zip(coded) {
        built.push(scope.method_of(alloc, true, method, code)?)?;
    }
    Ok(built)
}

// The methods of the program of classes, of which these are the parts, with this code.
fn linked_methods<'a>(
    alloc: Global,
    classes: &'a [&'a ClassFile],
    layout: &'a Layout,
    methods: &'a [&'a Declared<'a>],
    coded: &[Option<Coded>],
) -> Result<Vec<Method>, BuildEnd>
    requires types { layout.now.types.items ≡ all_rows (map (λ c. c.now) classes.now) }
    requires texts { layout.now.texts.items ≡ all_texts (map (λ c. c.now) classes.now) }
    requires fields { layout.now.fields.items ≡ all_fields (map (λ c. c.now) classes.now) }
    requires methods { map (λ m. m.now) methods.now ≡ taken_methods (map (λ c. c.now) classes.now) }
    ensures { Builds (λ v. v.items) result (meanings_of_methods (map (λ c. c.now) classes.now) coded.now) }
{
    let names = Names::new(alloc, classes)?;
    let numbering = Numbering::new(alloc, layout, methods)?;
    let bases = Bases::new(alloc, classes)?;
    let scope = Scope {
        names: &names,
        numbering: &numbering,
        bases: &bases,
    };
    methods_among(alloc, &scope, methods, coded)
}

// The program of classes whose taken methods are these, with this code.
fn program_with(
    alloc: Global,
    classes: &[&ClassFile],
    methods: &[&Declared],
    coded: &[Option<Coded>],
) -> Result<Program, BuildEnd>
    requires { map (λ m. m.now) methods.now ≡ taken_methods (map (λ c. c.now) classes.now) }
    ensures { Builds (λ p. p) result (program_of_code (map (λ c. c.now) classes.now) coded.now) }
{
    let layout = Layout::of(alloc, classes)?;
    let built = linked_methods(alloc, &*classes, &layout, &*methods, coded)?;
    let text_places = text_places(alloc, classes)?;
    Ok(Program::new(alloc, layout.types, text_places, layout.fields, built)?)
}

// The first construct that is left out in the taken methods of classes, which are these.
fn first_construct<'a>(
    alloc: Global,
    classes: &'a [&'a ClassFile],
    methods: &[&Declared<'a>],
) -> Result<Option<Refusal>, NoMemory>
    requires { map (λ m. m.now) methods.now ≡ taken_methods (map (λ c. c.now) classes.now) }
    ensures { IfOk result (λ o. o ≡ fault_of_constructs (map (λ c. c.now) classes.now)) }
{
    let resolver = Resolver::new(alloc, classes)?;
    constructs_fault(alloc, &resolver, methods)
}

// The first fault of superclasses and interfaces.
fn first_super_fault(alloc: Global, classes: &[&ClassFile]) -> Result<Option<Refusal>, NoMemory>
    ensures { IfOk result (λ o. o ≡ fault_of_supers (map (λ c. c.now) classes.now)) }
{
    let ways = Ways::new(alloc, classes)?;
    supers_fault(alloc, &ways)
}

// The program of the code of the taken methods, or the first fault of these.
fn coded_program<'a>(
    alloc: Global,
    classes: &'a [&'a ClassFile],
    methods: &'a [Declared<'a>],
) -> Result<Program, BuildEnd>
    requires { methods.now ≡ methods_of_classes (map (λ c. c.now) classes.now) }
    ensures { Links (λ p. p) result (program_of_taken (map (λ c. c.now) classes.now)) }
{
    let flags = are_taken_among(alloc, methods)?;
    let taken = taken_among(alloc, methods, flags.as_slice())?;
    let coded = all_decoded(alloc, taken.as_slice())?;
    if let Some(fault) = first_construct(alloc, classes, taken.as_slice())? {
        return Err(BuildEnd::Refused(fault));
    }
    program_with(alloc, classes, taken.as_slice(), coded.as_slice())
}

// The same, unless superclasses, interfaces, marks or members have a fault.
fn linked(alloc: Global, classes: &[&ClassFile]) -> Result<Program, BuildEnd>
    ensures { Links (λ p. p) result (linking (map (λ c. c.now) classes.now)) }
{
    if let Some(fault) = first_super_fault(alloc, classes)? {
        return Err(BuildEnd::Refused(fault));
    }
    let methods = methods_in(alloc, classes)?;
    if let Some(fault) = marks_fault(alloc, methods.as_slice())? {
        return Err(BuildEnd::Refused(fault));
    }
    if let Some(fault) = members_fault(alloc, classes)? {
        return Err(BuildEnd::Refused(fault));
    }
    coded_program(alloc, classes, methods.as_slice())
}

/// The program of classes, which stand in the byte order of their names: their types of objects, texts and fields, and the methods that are taken,
/// class by class. These are the marked methods, the static initialisers, and those that taken ones call.
///
/// Refused with the first fault, in this order:
///
/// - of superclasses and interfaces: `UnknownClass` or `BadSuper`, else `Circular`;
/// - of the annotations of all methods and of their marks: `BadAnnotation`, `BadRetries`, or `Construct` of the kind `AtomicPlace`;
/// - of members: `Construct` of the kind `InterfaceInit` or `TwinField`;
/// - of the code of the taken methods: `BadInstr`, `BadTarget`, or `BadCode` where a method has none that can be read;
/// - of the constructs in these that are left out: `Construct` or `UnknownClass`.
///
/// NotBuilt exactly where an instruction of a taken method means nothing.
pub fn build(alloc: Global, classes: &[&ClassFile]) -> Result<Program, BuildEnd>
    ensures { Links (λ p. p) result (linking (map (λ c. c.now) classes.now)) }
{
    linked(alloc, classes)
}

/// The same of class files in the order of their paths. Refused before all else as `DoubledClass` where two have classes of one name, or one that of the
/// library; then as `ReservedName` where a pool has a name that rewriting keeps for itself.
pub fn build_files(alloc: Global, files: &[ClassFile]) -> Result<Program, BuildEnd>
    ensures { Links (λ p. p) result (linking_files files.now) }
{
    let classes = in_order(alloc, files)?;
    build(alloc, classes.as_slice())
}
