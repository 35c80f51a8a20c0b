//! Jumps and switches, by the numbers of instructions (JVM Specification, Java SE 7, section 6.5: if, goto, tableswitch, lookupswitch).
ghost use Rattle.std.specs.Prelude.{◌≡◌, true, Some, option_map, IfOk};
ghost use Rattle.jmodel.specs.format.Instruction.{ascend};
ghost use Rattle.objects.specs.linking.Each.{each};
ghost use Rattle.objects.specs.linking.Code.{table_cases as cases_of_table, numbered_case as case_with_number};
ghost use Rattle.objects.specs.declared.op.Op.TheVariants.{Switch};
ghost use Rattle.objects.specs.linking.Decoding.{jump_op as jump, switch_op as switch};

use hierarchy::numbered::Numbered;
use hierarchy::simple::jump_to;
use objects::Cases;
use objects::op::Op;
use std::alloc::{AllocError, Global};

/// What a jump to a place means.
pub fn jump_op(code: &Numbered, opcode: u8, target: u16) -> Option<Op>
    ensures { result ≡ jump code.now opcode target }
{
    jump_to(opcode, code.number_at(target)?)
}

/// The cases of a tableswitch: the keys from the lowest on, each with its target.
pub fn table_cases(alloc: Global, low: i32, targets: &[u16]) -> Result<Vec<(i32, u16)>, AllocError>
    ensures { IfOk result (λ v. v.items ≡ cases_of_table low targets.now) }
{
    let mut cases = Vec::new(alloc);
    let mut key = low;
    for target in targets {
        cases.push((key, *target))?;
        key = key.wrapping_add(1);
    }
    Ok(cases)
}

// A case, with the number of the instruction at its target.
fn numbered_case(code: &Numbered, case: &(i32, u16)) -> Option<(i32, usize)>
    ensures { result ≡ case_with_number code.now case.now }
{
    Some((case.0, code.number_at(case.1)?))
}

// The same of each case, if each target has an instruction.
fn numbered_cases(
    alloc: Global,
    code: &Numbered,
    cases: &[(i32, u16)],
) -> Result<Option<Vec<(i32, usize)>>, AllocError>
    ensures { IfOk result (λ o. option_map (λ v. v.items) o ≡ each (case_with_number code.now) cases.now) }
{
    let mut numbered = Vec::new(alloc);
    for case in cases {
        match numbered_case(code, case) {
            Some(found) => numbered.push(found)?,
            None => return Ok(None),
        }
    }
    Ok(Some(numbered))
}

// A switch of these cases.
fn made_switch(other: usize, cases: Vec<(i32, usize)>) -> Option<Op>
    requires { ascend cases.items ≡ true }
    ensures { result ≡ Some (Switch other cases.items) }
{
    let cases = Cases::new(cases)?;
    Some(Op::Switch { other, cases })
}

/// What a switch means, whose keys ascend.
pub fn switch_op(
    alloc: Global,
    code: &Numbered,
    other: u16,
    cases: &[(i32, u16)],
) -> Result<Option<Op>, AllocError>
    requires { ascend cases.now ≡ true }
    ensures { IfOk result (λ o. o ≡ switch code.now other cases.now) }
{
    let Some(other) = code.number_at(other) else {
        return Ok(None);
    };
    let Some(numbered) = numbered_cases(alloc, code, cases)? else {
        return Ok(None);
    };
    Ok(made_switch(other, numbered))
}
