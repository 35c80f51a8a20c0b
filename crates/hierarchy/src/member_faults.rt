//! Members of classes that are left out for good.
ghost use Rattle.std.specs.Prelude.{◌≡◌, map, pos, codes, IfOk};
ghost use Rattle.std.specs.List.{list_any};
ghost use Rattle.jmodel.specs.declared.refusal.Refusal.TheVariants.{Construct};
ghost use Rattle.jmodel.specs.format.ClassFile.{Member as MemberForm};
ghost use Rattle.jmodel.specs.format.Pool.{utf8};
ghost use Rattle.jmodel.specs.format.ClassRules.{same_text};
ghost use Rattle.objects.specs.linking.Members.{are_distinct as distinct, field_name_of, own_name as name_of_class};
ghost use Rattle.objects.specs.linking.Faults.{first_fault};
ghost use Rattle.objects.specs.linking.Resolution.{is_interface as of_interface};
ghost use Rattle.objects.specs.linking.ClassesFaults.{has_interface_init as with_interface_init, has_twin_fields as with_twin_fields, member_fault as fault_of_members, members_fault as first_fault_of_members};

use crate::names::Names;
use crate::symbols::{is_text, own_name, text};
use const_pool::{ClassFile, Member, Pool};
use jmodel::{Bytes, NoMemory, Refusal};
use std::alloc::{AllocError, Global};

/// Whether a class is an interface, by the flag 0200.
pub fn is_interface(class: &ClassFile) -> bool
    ensures { result ≡ of_interface class.now }
{
    class.flags & 0x200 != 0
}

// Whether a method has the name of static initialisers.
fn have_initialiser(pool: &Pool, methods: &[Member]) -> bool
    ensures { result ≡ list_any (λ (m : MemberForm). same_text (utf8 pool.now m.name) (codes "<clinit>")) methods.now }
{
    for method in methods {
        if is_text(pool.utf8(method.name), b"<clinit>") {
            return true;
        }
    }
    false
}

// Whether it is an interface with a method of that name.
fn has_interface_init(class: &ClassFile) -> bool
    ensures { result ≡ with_interface_init class.now }
{
    is_interface(class) && have_initialiser(&class.pool, class.methods.as_slice())
}

// Whether no two fields have one name.
fn have_own_names(alloc: Global, pool: &Pool, fields: &[Member]) -> Result<bool, NoMemory>
    ensures { IfOk result (λ b. b ≡ distinct (map (field_name_of pool.now) fields.now)) }
{
    let mut names = Names::new(alloc);
    for field in fields {
        if !names.insert(b"", text(pool, field.name), b"")? {
            return Ok(false);
        }
    }
    Ok(true)
}

fn has_twin_fields(alloc: Global, class: &ClassFile) -> Result<bool, NoMemory>
    ensures { IfOk result (λ b. b ≡ with_twin_fields class.now) }
{
    Ok(!have_own_names(alloc, &class.pool, class.fields.as_slice())?)
}

// What is left out of the members of a class is told by its name.
fn left_out(alloc: Global, kind: &[u8], class: &ClassFile) -> Result<Refusal, AllocError>
    ensures { IfOk result (λ r. r ≡ Construct kind.now (name_of_class class.now) (pos 0)) }
{
    let kind = Bytes::from_slice(alloc, kind)?;
    let name = Bytes::from_slice(alloc, own_name(class))?;
    Ok(Refusal::Construct(kind, name, 0))
}

fn member_fault(alloc: Global, class: &ClassFile) -> Result<Option<Refusal>, NoMemory>
    ensures { IfOk result (λ o. o ≡ fault_of_members class.now) }
{
    if has_interface_init(class) {
        return Ok(Some(left_out(alloc, b"InterfaceInit", class)?));
    }
    if has_twin_fields(alloc, class)? {
        return Ok(Some(left_out(alloc, b"TwinField", class)?));
    }
    Ok(None)
}

/// The first fault of the members of classes, in their order: `Construct` with the name of the class, at 0, of the kind `InterfaceInit`, where an
/// interface has a method of the name of static initialisers, or else of the kind `TwinField`, where two of its fields have one name.
pub fn members_fault(alloc: Global, classes: &[&ClassFile]) -> Result<Option<Refusal>, NoMemory>
    ensures { IfOk result (λ o. o ≡ first_fault_of_members (map (λ c. c.now) classes.now)) }
{
    for class in classes {
        if let Some(fault) = member_fault(alloc, class)? {
            return Ok(Some(fault));
        }
    }
    Ok(None)
}
