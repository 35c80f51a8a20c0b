//! Programs of rewritten classes.
ghost use Rattle.std.specs.Prelude.{◌≡◌, Some, Ok, Bool, map, IfOk};
ghost use Rattle.objects.specs.linking.Each.{each};
ghost use Rattle.objects.specs.linking.Classes.{Declared as DeclaredForm};
ghost use Rattle.objects.specs.linking.Layout.{rows as all_rows, texts_of as all_texts, fields_of as all_fields};
ghost use Rattle.objects.specs.linking.Linking.{linking};
ghost use Rattle.objects.specs.rewriting.Relinking.{relinked};
ghost use Rattle.hierarchy.specs.Built.{Builds};
ghost use Rattle.linking.specs.Relinking.{meaning_among, meanings_over, program_over};

use crate::bases::Bases;
use crate::build::Scope;
use crate::decoding::decoded_member;
use crate::layout::Layout;
use crate::names::Names;
use crate::numbering::Numbering;
use crate::rewritten::rewritten_members;
use const_pool::ClassFile;
use heap_layout::texts::text_places;
use hierarchy::declared::Declared;
use hierarchy::{BuildEnd, Method, Program};
use jmodel::unless_refused;
use std::alloc::{AllocError, Global};

// What a method of a rewritten class means; its frames count or don't.
fn rewritten_method<'a>(
    alloc: Global,
    scope: &Scope<'_, 'a>,
    counted: bool,
    method: &Declared<'a>,
) -> Result<Method, BuildEnd>
    ensures { Builds (λ m. m) result (meaning_among scope.now.names.now scope.now.numbering.now scope.now.bases.now counted method.now) }
{
    match unless_refused(decoded_member(alloc, method))? {
        Some(coded) => scope.method_of(alloc, counted, method, &coded),
        None => Err(BuildEnd::NotBuilt),
    }
}

// The same of each, with whether its frames count.
fn methods_among<'a>(
    alloc: Global,
    scope: &Scope<'_, 'a>,
    methods: &[(Declared<'a>, bool)],
) -> Result<Vec<Method>, BuildEnd>
    ensures { Builds (λ v. v.items) result (each (λ (p : DeclaredForm × Bool). meaning_among scope.now.names.now scope.now.numbering.now scope.now.bases.now p.1 p.0) methods.now) }
{
    let mut built = Vec::new(alloc);
    for (method, counted) in methods {
        built.push(rewritten_method(alloc, scope, *counted, method)?)?;
    }
    Ok(built)
}

// References to methods.
fn references<'a>(
    alloc: Global,
    methods: &'a [(Declared<'a>, bool)],
) -> Result<Vec<&'a Declared<'a>>, AllocError>
    ensures { IfOk result (λ v. map (λ m. m.now) v.items ≡ map (λ (p : DeclaredForm × Bool). p.0) methods.now) }
{
    let mut all = Vec::new(alloc);
    for (method, _) in methods {
        all.push(method)?;
    }
    Ok(all)
}

// What these methods of rewritten classes mean, over originals whose program has these types, texts and fields.
fn methods_over<'a>(
    alloc: Global,
    originals: &'a [&'a ClassFile],
    classes: &'a [&'a ClassFile],
    layout: &'a Layout,
    all: &'a [&'a Declared<'a>],
    methods: &[(Declared<'a>, bool)],
) -> Result<Vec<Method>, BuildEnd>
    requires types { layout.now.types.items ≡ all_rows (map (λ c. c.now) originals.now) }
    requires texts { layout.now.texts.items ≡ all_texts (map (λ c. c.now) originals.now) }
    requires fields { layout.now.fields.items ≡ all_fields (map (λ c. c.now) originals.now) }
    requires methods { map (λ m. m.now) all.now ≡ map (λ (p : DeclaredForm × Bool). p.0) methods.now }
    ensures { Builds (λ v. v.items) result (meanings_over (map (λ c. c.now) originals.now) (map (λ c. c.now) classes.now) methods.now) }
{
    let names = Names::new(alloc, classes)?;
    let numbering = Numbering::new(alloc, layout, all)?;
    let bases = Bases::new(alloc, originals)?;
    let scope = Scope {
        names: &names,
        numbering: &numbering,
        bases: &bases,
    };
    methods_among(alloc, &scope, methods)
}

// The program of these methods of rewritten classes, over that of the originals.
fn program_of(
    alloc: Global,
    originals: &[&ClassFile],
    classes: &[&ClassFile],
    methods: &[(Declared, bool)],
) -> Result<Program, BuildEnd>
    ensures { Builds (λ p. p) result (program_over (map (λ c. c.now) originals.now) (map (λ c. c.now) classes.now) methods.now) }
{
    let layout = Layout::of(alloc, originals)?;
    let all = references(alloc, &*methods)?;
    let built = methods_over(
        alloc,
        &*originals,
        &*classes,
        &layout,
        all.as_slice(),
        &*methods,
    )?;
    let text_places = text_places(alloc, originals)?;
    Ok(Program::new(alloc, layout.types, text_places, layout.fields, built)?)
}

/// The program of rewritten classes over that of their originals, which these are linked to: its types, texts and fields, and of each rewritten class the
/// methods that it has, then of each its accessors, then of each its duplicates, and then the methods of the helper of arrays. NotBuilt exactly where the
/// classes have none; never Refused.
pub fn rebuild(
    alloc: Global,
    originals: &[&ClassFile],
    classes: &[&ClassFile],
    original: &Program,
) -> Result<Program, BuildEnd>
    requires { linking (map (λ c. c.now) originals.now) ≡ Ok (Some original.now) }
    ensures { Builds (λ p. p) result (relinked original.now (map (λ c. c.now) originals.now) (map (λ c. c.now) classes.now)) }
{
    let methods = rewritten_members(alloc, &*classes, &*original)?;
    program_of(alloc, originals, classes, methods.as_slice())
}
