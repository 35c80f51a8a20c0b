//! A class file as a whole.
ghost use Rattle.std.specs.Prelude.{◌≡◌, ◌++◌, ◌<◌, ◌^◌, List, length, OnOk, IfOk};
ghost use Rattle.std.specs.List.{flat_map, AllByRecursion};
ghost use Rattle.jmodel.specs.format.ClassFile.{attribute, attributes, member, members, indexes, constant, constants, magic, spelling, u2};
ghost use Rattle.jmodel.specs.format.ClassRules.{IsClassFile};
ghost use Rattle.class_writer.specs.Short.{IsShort, HasLength, AreShort, AreMembersShort, front, names, parts};

use crate::entries::{put_constant, put_u2, put_u4};
use const_pool::{Attribute, ClassFile, Member, Pool};
use jmodel::{Bytes, NoMemory};
use std::alloc::{AllocError, Global};

fn put_pool(out: &mut Bytes, pool: &Pool) -> Result<(), AllocError>
    requires few { length pool.now < 65535 }
    requires short { AllByRecursion IsShort pool.now }
    ensures { OnOk result (out.new ≡ out.old ++ constants pool.now) }
{
    put_u2(out, pool.entries().len() as u16 + 1)?;
    for entry in pool.entries() {
        put_constant(out, entry)?;
    }
    Ok(())
}

fn put_attribute(out: &mut Bytes, a: &Attribute) -> Result<(), AllocError>
    requires { HasLength a.now }
    ensures { OnOk result (out.new ≡ out.old ++ attribute a.now) }
{
    put_u2(out, a.name)?;
    put_u4(out, a.bytes.len() as u32)?;
    out.extend_from_slice(a.bytes.as_slice())
}

fn put_attributes(out: &mut Bytes, list: &[Attribute]) -> Result<(), AllocError>
    requires { AreShort list.now }
    ensures { OnOk result (out.new ≡ out.old ++ attributes list.now) }
{
    put_u2(out, list.len() as u16)?;
    for a in list {
        put_attribute(out, a)?;
    }
    Ok(())
}

fn put_member(out: &mut Bytes, m: &Member) -> Result<(), AllocError>
    requires { AreShort m.now.attributes }
    ensures { OnOk result (out.new ≡ out.old ++ member m.now) }
{
    put_u2(out, m.flags)?;
    put_u2(out, m.name)?;
    put_u2(out, m.descriptor)?;
    put_attributes(out, &m.attributes)
}

fn put_members(out: &mut Bytes, list: &[Member]) -> Result<(), AllocError>
    requires { AreMembersShort list.now }
    ensures { OnOk result (out.new ≡ out.old ++ members list.now) }
{
    put_u2(out, list.len() as u16)?;
    for m in list {
        put_member(out, m)?;
    }
    Ok(())
}

fn put_indexes(out: &mut Bytes, list: &[u16]) -> Result<(), AllocError>
    requires { length list.now < 2 ^ 16 }
    ensures { OnOk result (out.new ≡ out.old ++ indexes list.now) }
{
    put_u2(out, list.len() as u16)?;
    for i in list {
        put_u2(out, *i)?;
    }
    Ok(())
}

fn put_front(out: &mut Bytes, class: &ClassFile) -> Result<(), AllocError>
    requires { IsClassFile class.now }
    ensures { OnOk result (out.new ≡ out.old ++ front class.now) }
{
    out.extend_from_slice(&[0xca, 0xfe, 0xba, 0xbe])?;
    put_u2(out, class.minor)?;
    put_u2(out, class.major)?;
    put_pool(out, &class.pool)
}

fn put_names(out: &mut Bytes, class: &ClassFile) -> Result<(), AllocError>
    requires { IsClassFile class.now }
    ensures { OnOk result (out.new ≡ out.old ++ names class.now) }
{
    put_u2(out, class.flags)?;
    put_u2(out, class.this_class)?;
    put_u2(out, class.super_class)?;
    put_indexes(out, &class.interfaces)
}

fn put_parts(out: &mut Bytes, class: &ClassFile) -> Result<(), AllocError>
    requires { IsClassFile class.now }
    ensures { OnOk result (out.new ≡ out.old ++ parts class.now) }
{
    put_members(out, &class.fields)?;
    put_members(out, &class.methods)?;
    put_attributes(out, &class.attributes)
}

fn put_class(alloc: Global, class: &ClassFile) -> Result<Bytes, AllocError>
    requires { IsClassFile class.now }
    ensures { IfOk result (λ b. b ≡ front class.now ++ names class.now ++ parts class.now) }
{
    let mut out = Bytes::new(alloc);
    put_front(&mut out, class)?;
    put_names(&mut out, class)?;
    put_parts(&mut out, class)?;
    Ok(out)
}

/// The one spelling of the class: the bytes that it was read from, where it was read.
pub fn write_class(alloc: Global, class: &ClassFile) -> Result<Bytes, NoMemory>
    requires { IsClassFile class.now }
    ensures { IfOk result (λ b. b ≡ spelling class.now) }
{
    match put_class(alloc, class) {
        Ok(bytes) => Ok(bytes),
        Err(_) => Err(NoMemory),
    }
}
