//! The blocks of a wrapper: a loop of attempts.
ghost use Rattle.std.specs.Prelude.{◌≡◌, ◌≤◌, ◌<◌, ◌++◌, [], ◌∷◌, IfOk, OnOk, length};
ghost use Rattle.objects.specs.rewriting.Rewriting.{result_sort as sort_of_result};
ghost use Rattle.member_code.specs.Instrs.{load as load_of, call_virtual as call_virtual_of, jump as jump_of};
ghost use Rattle.member_code.specs.Coding.{block as block_of};
ghost use Rattle.retry_wrapper.specs.Wrappers.{one_load, loads_from, call_duplicate as call_of_duplicate, entry_instrs, begin_instrs, body_instrs, commit_instrs, end_instrs, conflict_instrs, exception_instrs, wrapper_blocks as blocks_of_wrapper};

use crate::wrappers::{Ending, Opening};
use bytecode::{Block, Instr, opcodes};
use hierarchy::Method;
use jmodel::VType;
use member_code::instrs::{
    call_special, call_static, call_virtual, give, jump, load, naming, plain, store,
};
use objects::op::{Dispatch, Sort};
use std::alloc::{AllocError, Global};

fn entry(alloc: Global, c: u16, a: Opening) -> Result<Vec<Instr>, AllocError>
    ensures { IfOk result (λ v. v.items ≡ entry_instrs c a) }
{
    Ok(vec![in alloc; call_static(a.get), store(Sort::Reference, c)]?)
}

// The beginning of an attempt.
fn begin(alloc: Global, c: u16, a: Opening) -> Result<Vec<Instr>, AllocError>
    ensures { IfOk result (λ v. v.items ≡ begin_instrs c a) }
{
    Ok(vec![in alloc;
        load(Sort::Reference, c),
        naming(opcodes::LDC_W, a.number),
        naming(opcodes::LDC_W, a.retries),
        call_virtual(a.init),
    ]?)
}

// Puts the load of a parameter behind instructions.
fn push_load(instrs: &mut Vec<Instr>, local: u16, t: &VType) -> Result<(), AllocError>
    ensures { OnOk result (instrs.new.items ≡ instrs.old.items ++ one_load local t.now) }
{
    match t {
        VType::Int => Ok(instrs.push(load(Sort::Int, local))?),
        VType::Long => Ok(instrs.push(load(Sort::Long, local))?),
        VType::Second => Ok(()),
        _ => Ok(instrs.push(load(Sort::Reference, local))?),
    }
}

// The parameters, each on the stack.
#[tactic(auto, using(crate::proofs::Loads::loads_go_on, crate::proofs::Loads::loads_are_done))]
fn loads(alloc: Global, parameters: &[VType]) -> Result<Vec<Instr>, AllocError>
    requires { length parameters.now ≤ 254 }
    ensures { IfOk result (λ v. v.items ≡ loads_from 0 parameters.now) }
{
    let mut instrs = Vec::new(alloc);
    for (i, t) in parameters.iter().enumerate() {
        push_load(&mut instrs, i as u16, t)?;
    }
    Ok(instrs)
}

fn call_duplicate(dispatch: Dispatch, duplicate: u16) -> Instr
    ensures { result ≡ call_of_duplicate dispatch duplicate }
{
    match dispatch {
        Dispatch::Static => call_static(duplicate),
        _ => call_special(duplicate),
    }
}

// The parameters, and the call of the duplicate.
fn body(alloc: Global, method: &Method, e: Ending) -> Result<Vec<Instr>, AllocError>
    requires few { method.now.places ≤ 254 }
    requires long { length method.now.parameters ≤ 254 }
    ensures { IfOk result (λ v. v.items ≡ body_instrs method.now e) }
{
    let mut instrs = loads(alloc, method.parameters())?;
    let context = method.entry().places as u16;
    instrs.push(load(Sort::Reference, context))?;
    instrs.push(call_duplicate(method.dispatch(), e.duplicate))?;
    Ok(instrs)
}

// A commit, and the next attempt where it fails.
fn push_commit(instrs: &mut Vec<Instr>, c: u16, e: Ending) -> Result<(), AllocError>
    ensures { OnOk result (instrs.new.items ≡ instrs.old.items ++ commit_instrs c e) }
{
    instrs.push(load(Sort::Reference, c))?;
    instrs.push(call_virtual(e.commit))?;
    instrs.push(jump(opcodes::IFEQ, 1))?;
    Ok(())
}

fn result_sort(t: &VType) -> Sort
    ensures { result ≡ sort_of_result t.now }
{
    match t {
        VType::Int => Sort::Int,
        VType::Long => Sort::Long,
        _ => Sort::Reference,
    }
}

// What the body gave, if anything, is kept over the commit.
fn end(alloc: Global, sort: Option<Sort>, c: u16, e: Ending) -> Result<Vec<Instr>, AllocError>
    requires { c ≤ 254 }
    ensures { IfOk result (λ v. v.items ≡ end_instrs sort c e) }
{
    let mut instrs = Vec::new(alloc);
    match sort {
        Some(sort) => {
            instrs.push(store(sort, c + 1))?;
            push_commit(&mut instrs, c, e)?;
            instrs.push(load(sort, c + 1))?;
            instrs.push(give(sort))?;
        }
        None => {
            push_commit(&mut instrs, c, e)?;
            instrs.push(plain(opcodes::RETURN))?;
        }
    }
    Ok(instrs)
}

// A conflict is rolled back.
fn conflict(alloc: Global, c: u16, e: Ending) -> Result<Vec<Instr>, AllocError>
    ensures { IfOk result (λ v. v.items ≡ conflict_instrs c e) }
{
    Ok(vec![in alloc;
        plain(opcodes::POP),
        load(Sort::Reference, c),
        call_virtual(e.rollback),
        jump(opcodes::GOTO, 1),
    ]?)
}

// Any other exception is thrown on after a commit.
fn exception(alloc: Global, c: u16, e: Ending) -> Result<Vec<Instr>, AllocError>
    requires { c ≤ 254 }
    ensures { IfOk result (λ v. v.items ≡ exception_instrs c e) }
{
    let mut instrs = Vec::new(alloc);
    instrs.push(store(Sort::Reference, c + 1))?;
    push_commit(&mut instrs, c, e)?;
    instrs.push(load(Sort::Reference, c + 1))?;
    instrs.push(plain(opcodes::ATHROW))?;
    Ok(instrs)
}

/// The blocks of a wrapper.
pub fn wrapper_blocks(
    alloc: Global,
    method: &Method,
    a: Opening,
    e: Ending,
) -> Result<Vec<Block>, AllocError>
    requires few { method.now.places ≤ 254 }
    requires long { length method.now.parameters ≤ 254 }
    ensures { IfOk result (λ v. v.items ≡ blocks_of_wrapper method.now a e) }
{
    let c = method.entry().places as u16;
    let sort = method.result().map(|t: &VType| result_sort(t));
    Ok(vec![in alloc;
        Block {
            pc: 0,
            instrs: entry(alloc, c, a)?
        },
        Block {
            pc: 1,
            instrs: begin(alloc, c, a)?
        },
        Block {
            pc: 2,
            instrs: body(alloc, method, e)?
        },
        Block {
            pc: 3,
            instrs: end(alloc, sort, c, e)?
        },
        Block {
            pc: 4,
            instrs: conflict(alloc, c, e)?
        },
        Block {
            pc: 5,
            instrs: exception(alloc, c, e)?
        },
    ]?)
}
