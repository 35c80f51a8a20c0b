//! Constructs of Java that a taken method may not have.
ghost use Rattle.std.specs.Prelude.{◌≡◌, ◌<◌, ◌^◌, List, [], ◌∷◌, ◌++◌, map, option_copied, option_map, IfOk, OnOk};
ghost use Rattle.jmodel.specs.declared.class_file.Handler.{Handler as HandlerForm};
ghost use Rattle.std.specs.Option.{option_or};
ghost use Rattle.jmodel.specs.declared.refusal.Refusal.TheVariants.{UnknownClass};
ghost use Rattle.jmodel.specs.format.Pool.{class_name};
ghost use Rattle.objects.specs.linking.Code.{decoded as decoded_of};
ghost use Rattle.objects.specs.linking.Faults.{first_fault};
ghost use Rattle.objects.specs.linking.Constructs.{named_class as class_named_by, has_flag as with_flag, construct as construct_of, whole_kinds, whole_fault as fault_of_whole, first_kind, last_kinds, kind_fault as fault_of_kinds, unknown_in, instr_fault as fault_of_instr, place_fault as fault_of_place, code_construct as construct_in_code, construct_fault as fault_of_method};
ghost use Rattle.objects.specs.linking.Linking.{taken_methods, constructs_fault as fault_of_taken};
ghost use Rattle.resolution.specs.Catching.{AreCaught, NotesFirst, caught_at};

use crate::calls::{kind_by_names, named_class, unknown_core};
use crate::floats::{is_float_descriptor, kind_by_itself};
use crate::resolution::Resolver;
use const_pool::{Handler, Member, Pool};
use hierarchy::code::{Coded, decoded_or_none, printed};
use hierarchy::declared::Declared;
use hierarchy::places::Places;
use hierarchy::symbols::text;
use jmodel::{Bytes, Instr, NoMemory, Refusal};
use std::alloc::{AllocError, Global};

// A construct of a kind, in a method, at a place of its code.
fn construct(alloc: Global, method: &Declared, pc: u16, kind: &[u8]) -> Result<Refusal, AllocError>
    ensures { IfOk result (λ r. r ≡ construct_of method.now pc kind.now) }
{
    let kind = Bytes::from_slice(alloc, kind)?;
    let name = printed(alloc, method.class, method.member)?;
    Ok(Refusal::Construct(kind, name, i64::from(pc)))
}

fn has_flag(flag: u16, method: &Member) -> bool
    ensures { result ≡ with_flag flag method.now }
{
    method.flags & flag != 0
}

// The first kind of construct that the flags and the descriptor of a method show.
fn whole_kind(alloc: Global, method: &Declared) -> Result<Option<&'static [u8]>, NoMemory>
    ensures { IfOk result (λ o. option_copied o ≡ first_kind (whole_kinds method.now)) }
{
    if has_flag(0x100, method.member) {
        return Ok(Some(b"Native"));
    }
    if has_flag(0x20, method.member) {
        return Ok(Some(b"Synchronized"));
    }
    let class = method.class;
    let member = method.member;
    if is_float_descriptor(alloc, text(&class.pool, member.descriptor))? {
        return Ok(Some(b"Float"));
    }
    Ok(None)
}

// The fault of the whole method, which is told at 0.
fn whole_fault(alloc: Global, method: &Declared) -> Result<Option<Refusal>, NoMemory>
    ensures { IfOk result (λ o. o ≡ fault_of_whole method.now) }
{
    match whole_kind(alloc, method)? {
        Some(kind) => Ok(Some(construct(alloc, method, 0, kind)?)),
        None => Ok(None),
    }
}

fn unknown_class(alloc: Global, name: &[u8]) -> Result<Refusal, AllocError>
    ensures { IfOk result (λ r. r ≡ UnknownClass name.now) }
{
    Ok(Refusal::UnknownClass(Bytes::from_slice(alloc, name)?))
}

// An unknown class that an instruction names.
fn unknown_named<'a>(places: &Places<'a>, pool: &'a Pool, i: &Instr) -> Option<&'a [u8]>
    ensures { option_map (λ n. UnknownClass n.now) result ≡ unknown_in places.now (class_named_by pool.now i.now) }
{
    unknown_core(places, named_class(pool, i)?)
}

// The fault of what an instruction names: an unknown class, else the first kind of construct.
fn named_fault<'a>(
    alloc: Global,
    resolver: &Resolver<'a>,
    method: &Declared<'a>,
    i: &Instr,
) -> Result<Option<Refusal>, NoMemory>
    ensures { IfOk result (λ o. o ≡ option_or (unknown_in resolver.now (class_named_by method.now.class.pool i.now)) (fault_of_kinds method.now i.now.pc (last_kinds resolver.now method.now.class i.now))) }
{
    let class = method.class;
    if let Some(name) = unknown_named(resolver.places(), &class.pool, i) {
        return Ok(Some(unknown_class(alloc, name)?));
    }
    match kind_by_names(resolver, class, i) {
        Some(kind) => Ok(Some(construct(alloc, method, i.pc, kind)?)),
        None => Ok(None),
    }
}

// The fault of an instruction.
fn instr_fault<'a>(
    alloc: Global,
    resolver: &Resolver<'a>,
    method: &Declared<'a>,
    i: &Instr,
) -> Result<Option<Refusal>, NoMemory>
    ensures { IfOk result (λ o. o ≡ fault_of_instr resolver.now method.now i.now) }
{
    let class = method.class;
    if let Some(kind) = kind_by_itself(alloc, &class.pool, i)? {
        return Ok(Some(construct(alloc, method, i.pc, kind)?));
    }
    named_fault(alloc, resolver, method, i)
}

// An unknown class that an exception entry catches.
fn unknown_caught<'a>(places: &Places<'a>, pool: &'a Pool, entry: &Handler) -> Option<&'a [u8]>
    ensures { option_map (λ n. UnknownClass n.now) result ≡ unknown_in places.now (class_name pool.now entry.now.catch_type) }
{
    unknown_core(places, pool.class_name(entry.catch_type)?.as_slice())
}

// Notes a name at a place, where that has none yet.
fn note<'a>(
    names: &mut Vec<Option<&'a [u8]>>,
    place: usize,
    name: &'a [u8],
) -> Result<(), AllocError>
    requires { place < 2 ^ 16 }
    ensures { IfOk result (λ _. NotesFirst names.old.items names.new.items place name.entry) }
{
    if names.len() <= place {
        names.resize(place + 1, None)?;
    }
    if names[place].is_none() {
        names[place] = Some(name);
    }
    Ok(())
}

// Notes the unknown class that an exception entry catches, behind those of others.
fn note_caught<'a>(
    places: &Places<'a>,
    pool: &'a Pool,
    entry: &Handler,
    names: &mut Vec<Option<&'a [u8]>>,
) -> Result<(), AllocError>
    ensures { OnOk result ((hs : List HandlerForm) → AreCaught places.now pool.now hs (map option_copied names.old.items) → AreCaught places.now pool.now (hs ++ entry.now ∷ []) (map option_copied names.new.items)) }
{
    let Some(name) = unknown_caught(places, pool, entry) else {
        return Ok(());
    };
    note(names, entry.handler as usize, name)?;
    Ok(())
}

// For each place the first unknown class that an exception entry catches whose handler stands there.
fn caught<'a>(
    alloc: Global,
    places: &Places<'a>,
    pool: &'a Pool,
    entries: &[Handler],
) -> Result<Vec<Option<&'a [u8]>>, AllocError>
    ensures { IfOk result (λ v. AreCaught places.now pool.now entries.now (map option_copied v.items)) }
{
    let mut names = Vec::new(alloc);
    for entry in entries {
        note_caught(places, pool, entry, &mut names)?;
    }
    Ok(names)
}

// The name that is noted at a place.
fn name_at<'a>(names: &[Option<&'a [u8]>], pc: u16) -> Option<&'a [u8]>
    ensures { option_map (λ n. UnknownClass n.now) result ≡ caught_at (map option_copied names.now) pc }
{
    names.get(pc as usize).copied().flatten()
}

// The fault at a place: of the entries that lead to it, else of the instruction.
fn place_fault<'a>(
    alloc: Global,
    resolver: &Resolver<'a>,
    method: &Declared<'a>,
    names: &[Option<&'a [u8]>],
    i: &Instr,
) -> Result<Option<Refusal>, NoMemory>
    ensures { IfOk result (λ o. o ≡ option_or (caught_at (map option_copied names.now) i.now.pc) (fault_of_instr resolver.now method.now i.now)) }
{
    if let Some(name) = name_at(names, i.pc) {
        return Ok(Some(unknown_class(alloc, name)?));
    }
    instr_fault(alloc, resolver, method, i)
}

// The first fault of instructions, by places.
fn code_fault<'a>(
    alloc: Global,
    resolver: &Resolver<'a>,
    method: &Declared<'a>,
    coded: &Coded,
) -> Result<Option<Refusal>, NoMemory>
    ensures { IfOk result (λ o. o ≡ first_fault (fault_of_place resolver.now method.now coded.now.code.handlers) coded.now.instrs) }
{
    let class = method.class;
    let entries = coded.code.handlers.as_slice();
    let names = caught(alloc, resolver.places(), &class.pool, entries)?;
    for i in &coded.instrs {
        if let Some(fault) = place_fault(alloc, resolver, method, names.as_slice(), i)? {
            return Ok(Some(fault));
        }
    }
    Ok(None)
}

// The first fault of the code of a method. Of code that can't be decoded nothing is told.
fn decoded_fault<'a>(
    alloc: Global,
    resolver: &Resolver<'a>,
    method: &Declared<'a>,
) -> Result<Option<Refusal>, NoMemory>
    ensures { IfOk result (λ o. o ≡ construct_in_code resolver.now method.now (decoded_of method.now.class method.now.member)) }
{
    match decoded_or_none(alloc, method.class, method.member)? {
        Some(coded) => code_fault(alloc, resolver, method, &coded),
        None => Ok(None),
    }
}

// The first construct of a method that is left out, of the whole method, else of its code, by places.
fn construct_fault<'a>(
    alloc: Global,
    resolver: &Resolver<'a>,
    method: &Declared<'a>,
) -> Result<Option<Refusal>, NoMemory>
    ensures { IfOk result (λ o. o ≡ fault_of_method resolver.now method.now) }
{
    if let Some(fault) = whole_fault(alloc, method)? {
        return Ok(Some(fault));
    }
    decoded_fault(alloc, resolver, method)
}

/// The first construct in methods that is left out, in their order. `Construct` with the kind, the method's printed name and the place, 0 for the whole
/// method; or `UnknownClass` with the name of a class that the code names and that neither the folder nor the library has.
pub fn first_construct<'a>(
    alloc: Global,
    resolver: &Resolver<'a>,
    methods: &[&Declared<'a>],
) -> Result<Option<Refusal>, NoMemory>
    ensures { IfOk result (λ o. o ≡ first_fault (fault_of_method resolver.now) (map (λ m. m.now) methods.now)) }
{
    for method in methods {
        if let Some(fault) = construct_fault(alloc, resolver, method)? {
            return Ok(Some(fault));
        }
    }
    Ok(None)
}

/// The first construct that is left out in the methods of a program, which are the taken ones: `Construct` or `UnknownClass`, as `first_construct`
/// tells them.
pub fn constructs_fault<'a>(
    alloc: Global,
    resolver: &Resolver<'a>,
    taken: &[&Declared<'a>],
) -> Result<Option<Refusal>, NoMemory>
    requires { map (λ m. m.now) taken.now ≡ taken_methods resolver.now }
    ensures { IfOk result (λ o. o ≡ fault_of_taken resolver.now) }
{
    first_construct(alloc, resolver, taken)
}
