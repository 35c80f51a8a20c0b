//! Wrappers: the loop of attempts that takes the place of the code of a marked method or a static initialiser.
ghost use Rattle.std.specs.Prelude.{◌≡◌, ◌+◌, ◌++◌, [], ◌∷◌, pos, max, option_copied, IfOk, OnOk};
ghost use Rattle.objects.specs.rewriting.Rewriting.{load_all, result_sort as sort_of_result, spare_locals as spare, invoke as call_of, entry_code, body_code, end_code, conflict_code, exception_code, body_end, conflict_at, catch as entry_of, wrapper_method, old_method as old_of, old_methods as old_from, next_id as id_after};
ghost use Rattle.objects.specs.declared.op.Catches.TheVariants.{Conflict as OnConflict, Any as OnAny};
ghost use Rattle.std.specs.List.{AllByRecursion};
ghost use Rattle.program_rewriter.specs.Loads.{one_load};
ghost use Rattle.program_rewriter.specs.Bodies.{IsShaped};

use crate::copies::{copy_method, copy_name, copy_shape};
use crate::numbers::{duplicate, sum};
use hierarchy::{Body, Method, Program};
use jmodel::{NoMemory, VType, Value};
use objects::op::{Catch, Catches, ContextCall, Dispatch, Op, Sort, StackOp, Test};
use std::alloc::{AllocError, Global};

// The context into a local, and the beginning of an attempt.
fn opening(alloc: Global, context: usize, number: i32, retries: i32) -> Result<Vec<Op>, AllocError>
    ensures { IfOk result (λ v. v.items ≡ entry_code context ++ Op.Load Sort.Reference context ∷ Op.Constant (Value.Int number) ∷ Op.Constant (Value.Int retries) ∷ Op.Context ContextCall.Init ∷ []) }
{
    Ok(vec![in alloc;
        Op::GetContext,
        Op::Store(Sort::Reference, context),
        Op::Load(Sort::Reference, context),
        Op::Constant(Value::Int(number)),
        Op::Constant(Value::Int(retries)),
        Op::Context(ContextCall::Init),
    ]?)
}

// Puts the load of a parameter behind instructions.
fn push_load(ops: &mut Vec<Op>, local: usize, of: &VType) -> Result<(), AllocError>
    ensures { OnOk result (ops.new.items ≡ ops.old.items ++ one_load local of.now) }
{
    match of {
        VType::Int => Ok(ops.push(Op::Load(Sort::Int, local))?),
        VType::Long => Ok(ops.push(Op::Load(Sort::Long, local))?),
        VType::Second => Ok(()),
        _ => Ok(ops.push(Op::Load(Sort::Reference, local))?),
    }
}

// The parameters, each on the stack.
#[tactic(auto, using(crate::proofs::LoadAll::loads_go_on, crate::proofs::LoadAll::loads_are_done))]
fn push_loads(ops: &mut Vec<Op>, parameters: &[VType]) -> Result<(), AllocError>
    ensures { OnOk result (ops.new.items ≡ ops.old.items ++ load_all 0 parameters.now) }
{
    for (local, of) in parameters.iter().enumerate() {
        push_load(ops, local, of)?;
    }
    Ok(())
}

fn invoke(dispatch: Dispatch, method: usize) -> Op
    ensures { result ≡ call_of dispatch method }
{
    match dispatch {
        Dispatch::Static => Op::InvokeStatic(method),
        _ => Op::InvokeSpecial(method),
    }
}

// The parameters, and the call of the duplicate.
fn push_body(ops: &mut Vec<Op>, method: &Method, duplicate: usize) -> Result<(), AllocError>
    ensures { OnOk result (ops.new.items ≡ ops.old.items ++ body_code method.now duplicate) }
{
    push_loads(ops, method.parameters())?;
    ops.push(Op::Load(Sort::Reference, method.entry().places))?;
    ops.push(invoke(method.dispatch(), duplicate))?;
    Ok(())
}

// A commit, and the next attempt where it fails.
fn push_commit(ops: &mut Vec<Op>, context: usize) -> Result<(), AllocError>
    ensures { OnOk result (ops.new.items ≡ ops.old.items ++ Op.Load Sort.Reference context ∷ Op.Context ContextCall.Commit ∷ Op.Branch Test.Equal 2 ∷ []) }
{
    ops.push(Op::Load(Sort::Reference, context))?;
    ops.push(Op::Context(ContextCall::Commit))?;
    ops.push(Op::Branch(Test::Equal, 2))?;
    Ok(())
}

fn result_sort(of: &VType) -> Sort
    ensures { result ≡ sort_of_result of.now }
{
    match of {
        VType::Int => Sort::Int,
        VType::Long => Sort::Long,
        _ => Sort::Reference,
    }
}

// What the body gave, if anything, is kept over the commit.
fn push_end(ops: &mut Vec<Op>, gives: Option<&VType>, context: usize) -> Result<(), NoMemory>
    ensures { OnOk result (ops.new.items ≡ ops.old.items ++ end_code (option_copied gives.entry) context) }
{
    match gives {
        Some(of) => {
            let kept = sum(context, 1)?;
            ops.push(Op::Store(result_sort(of), kept))?;
            push_commit(ops, context)?;
            ops.push(Op::Load(result_sort(of), kept))?;
            ops.push(Op::ReturnValue(result_sort(of)))?;
        }
        None => {
            push_commit(ops, context)?;
            ops.push(Op::Return)?;
        }
    }
    Ok(())
}

// A conflict is rolled back.
fn push_conflict(ops: &mut Vec<Op>, context: usize) -> Result<(), AllocError>
    ensures { OnOk result (ops.new.items ≡ ops.old.items ++ conflict_code context) }
{
    ops.push(Op::Stack(StackOp::Pop))?;
    ops.push(Op::Load(Sort::Reference, context))?;
    ops.push(Op::Context(ContextCall::Rollback))?;
    ops.push(Op::Goto(2))?;
    Ok(())
}

// Any other exception is thrown on after a commit.
fn push_exception(ops: &mut Vec<Op>, context: usize) -> Result<(), NoMemory>
    ensures { OnOk result (ops.new.items ≡ ops.old.items ++ exception_code context) }
{
    let kept = sum(context, 1)?;
    ops.push(Op::Store(Sort::Reference, kept))?;
    push_commit(ops, context)?;
    ops.push(Op::Load(Sort::Reference, kept))?;
    ops.push(Op::Throw)?;
    Ok(())
}

// A conflict in the body, which ends at one place, goes to another, and any other exception to the fourth place behind that.
fn entries(alloc: Global, end: usize, conflict: usize) -> Result<Vec<Catch>, NoMemory>
    ensures { IfOk result (λ v. v.items ≡ entry_of 6 end conflict OnConflict ∷ entry_of 6 end (conflict + 4) OnAny ∷ []) }
{
    let exception = sum(conflict, 4)?;
    Ok(vec![in alloc;
        Catch {
            from: 6,
            to: end,
            at: conflict,
            catches: Catches::Conflict
        },
        Catch {
            from: 6,
            to: end,
            at: exception,
            catches: Catches::Any
        },
    ]?)
}

// How many locals the wrapper has behind its arguments.
fn spare_locals(gives: Option<&VType>) -> usize
    ensures { result ≡ spare (option_copied gives.entry) }
{
    match gives {
        Some(VType::Long) => 3,
        _ => 2,
    }
}

fn wrapper_body(
    alloc: Global,
    method: &Method,
    duplicate: usize,
    number: i32,
    retries: i32,
) -> Result<Body, NoMemory>
    ensures locals { IfOk result (λ b. b.locals ≡ method.now.places + spare method.now.result) }
    ensures stack { IfOk result (λ b. b.max_stack ≡ max (method.now.places + 1) 3) }
    ensures ops { IfOk result (λ b. b.ops.items ≡ (entry_code method.now.places ++ Op.Load Sort.Reference method.now.places ∷ Op.Constant (Value.Int number) ∷ Op.Constant (Value.Int retries) ∷ Op.Context ContextCall.Init ∷ []) ++ body_code method.now duplicate ++ end_code method.now.result method.now.places ++ conflict_code method.now.places ++ exception_code method.now.places) }
    ensures catches { IfOk result (λ b. b.catches.items ≡ entry_of 6 (body_end method.now) (conflict_at method.now) OnConflict ∷ entry_of 6 (body_end method.now) (conflict_at method.now + 4) OnAny ∷ []) }
{
    let context = method.entry().places;
    let mut ops = opening(alloc, context, number, retries)?;
    push_body(&mut ops, method, duplicate)?;
    let end = ops.len();
    push_end(&mut ops, method.result(), context)?;
    let conflict = ops.len();
    push_conflict(&mut ops, context)?;
    push_exception(&mut ops, context)?;
    Ok(Body {
        locals: sum(context, spare_locals(method.result()))?,
        max_stack: sum(context, 1)?.max(3),
        ops,
        catches: entries(alloc, end, conflict)?,
    })
}

// A number as an int. There are fewer methods than ints, or memory is wanting.
fn as_int(number: usize) -> Result<i32, NoMemory>
    ensures { IfOk result (λ n. n ≡ pos number) }
{
    if number > 2_147_483_647 {
        return Err(NoMemory);
    }
    Ok(number as i32)
}

/// The wrapper of the method with a number, for so many attempts. The wrapper's own number among the wrappers is `id`.
pub fn wrapper_of(
    alloc: Global,
    program: &Program,
    id: usize,
    number: usize,
    retries: i32,
    method: &Method,
) -> Result<Method, NoMemory>
    requires { IsShaped method.now }
    ensures { IfOk result (λ m. m ≡ wrapper_method program.now id number retries method.now) }
{
    let called = duplicate(program, number)?;
    let body = wrapper_body(alloc, method, called, as_int(id)?, retries)?;
    Ok(Method::new(
        copy_name(alloc, method.name())?,
        copy_shape(alloc, method)?,
        false,
        method.retries(),
        body,
    ))
}

// An old method: a wrapper where it is marked or a static initialiser, else as it was.
fn old_method(
    alloc: Global,
    program: &Program,
    id: usize,
    number: usize,
    method: &Method,
) -> Result<Method, NoMemory>
    requires { IsShaped method.now }
    ensures { IfOk result (λ m. m ≡ old_of program.now id number method.now.retries method.now) }
{
    match method.retries() {
        Some(retries) => wrapper_of(alloc, program, id, number, retries, method),
        None => Ok(copy_method(alloc, method)?),
    }
}

fn next_id(id: usize, method: &Method) -> Result<usize, NoMemory>
    ensures { IfOk result (λ n. n ≡ id_after method.now.retries id) }
{
    match method.retries() {
        Some(_) => sum(id, 1),
        None => Ok(id),
    }
}

/// The methods of a program, with wrappers in the place of marked methods and static initialisers.
pub fn old_methods(alloc: Global, program: &Program) -> Result<Vec<Method>, NoMemory>
    requires { AllByRecursion IsShaped program.now.methods }
    ensures { IfOk result (λ v. v.items ≡ old_from program.now 0 0 program.now.methods) }
{
    let mut methods = Vec::new(alloc);
    let mut id = 0;
    for (number, method) in program.methods().iter().enumerate() {
        methods.push(old_method(alloc, program, id, number, method)?)?;
        id = next_id(id, method)?;
    }
    Ok(methods)
}
