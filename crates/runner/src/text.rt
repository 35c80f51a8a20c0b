//! What is printed.
ghost use Rattle.std.specs.Prelude.{◌≡◌, ◌++◌, OnOk, IfOk, map};
ghost use Rattle.std.specs.Fmt.{decimal, signed_decimal};
ghost use Rattle.std.specs.List.{flat_map};
ghost use Rattle.jmodel.specs.format.Name.{printed};
ghost use Rattle.objects.specs.semantics.Program.{method_at};
ghost use Rattle.jmodel.specs.history.Output.{value_text, answer_text, line_text, journal_text};
ghost use Rattle.runner.specs.Headline.{name_in};
ghost use Rattle.runner.specs.Kept.{answer_kept};
ghost use Rattle.runner.specs.Lines.{line_in, place_of};

use hierarchy::Program;
use jmodel::{Answer, Bytes, Value};
use session::Record;
use std::alloc::{AllocError, Global};

/// A number in decimal digits, at the end.
pub fn push_number(alloc: Global, out: &mut Bytes, number: u64) -> Result<(), AllocError>
    ensures { OnOk result (out.new ≡ out.old ++ decimal number) }
{
    let digits = number.to_string(alloc)?;
    out.extend_from_slice(digits.as_bytes())
}

/// A number with its sign, at the end.
pub fn push_signed(alloc: Global, out: &mut Bytes, number: i64) -> Result<(), AllocError>
    ensures { OnOk result (out.new ≡ out.old ++ signed_decimal number) }
{
    let digits = number.to_string(alloc)?;
    out.extend_from_slice(digits.as_bytes())
}

fn push_reference(alloc: Global, out: &mut Bytes, reference: u64) -> Result<(), AllocError>
    ensures { OnOk result (out.new ≡ out.old ++ value_text (Value.Ref reference)) }
{
    if reference == 0 {
        out.extend_from_slice(b"null")
    } else {
        out.extend_from_slice(b"ref ")?;
        push_number(alloc, out, reference)
    }
}

fn push_value(alloc: Global, out: &mut Bytes, value: Value) -> Result<(), AllocError>
    ensures { OnOk result (out.new ≡ out.old ++ value_text value) }
{
    match value {
        Value::Int(number) => push_signed(alloc, out, i64::from(number)),
        Value::Long(number) => push_signed(alloc, out, number),
        Value::Ref(reference) => push_reference(alloc, out, reference),
    }
}

fn push_heap(
    alloc: Global,
    out: &mut Bytes,
    used: u64,
    wanted: u64,
    size: u64,
) -> Result<(), AllocError>
    ensures { OnOk result (out.new ≡ out.old ++ answer_text (Answer.Heap used wanted size)) }
{
    let text = format!(in alloc; "refused heap {used} {wanted} {size}")?;
    out.extend_from_slice(text.as_bytes())
}

/// How a call ended, at the end.
pub fn push_answer(alloc: Global, out: &mut Bytes, answer: &Answer) -> Result<(), AllocError>
    ensures { OnOk result (out.new ≡ out.old ++ answer_text answer.now) }
{
    match answer {
        Answer::Returned(None) => out.extend_from_slice(b"void"),
        Answer::Returned(Some(value)) => push_value(alloc, out, *value),
        Answer::Threw(class) => {
            out.extend_from_slice(b"threw ")?;
            out.extend_from_slice(class.as_slice())
        }
        Answer::Budget => out.extend_from_slice(b"refused budget"),
        Answer::Depth => out.extend_from_slice(b"refused depth"),
        Answer::Heap { used, wanted, size } => push_heap(alloc, out, *used, *wanted, *size),
        Answer::Spent => out.extend_from_slice(b"spent"),
        Answer::NoMemory => out.extend_from_slice(b"nomemory"),
    }
}

/// How the first of the calls that is of this phase ended; where there is none, it ran out of memory.
pub(crate) fn answer_in(alloc: Global, calls: &[Record], phase: u32) -> Result<Bytes, AllocError>
    ensures { IfOk result (λ text. text ≡ answer_text (answer_kept phase calls.now)) }
{
    let mut out = Bytes::new(alloc);
    for call in calls {
        if call.phase == phase {
            push_answer(alloc, &mut out, &call.answer)?;
            return Ok(out);
        }
    }
    out.extend_from_slice(b"nomemory")?;
    Ok(out)
}

/// The place of a call in its script and a space, at the end.
fn push_place(alloc: Global, out: &mut Bytes, call: &Record) -> Result<(), AllocError>
    ensures { OnOk result (out.new ≡ out.old ++ place_of call.now) }
{
    let phase = call.phase;
    let lane = call.lane;
    let index = call.index;
    let text = format!(in alloc; "{phase} {lane} {index} ")?;
    out.extend_from_slice(text.as_bytes())
}

/// The printed name of the method of a number, at the end; where there is no such method, its three parts are empty.
fn push_name(
    alloc: Global,
    out: &mut Bytes,
    program: &Program,
    number: usize,
) -> Result<(), AllocError>
    ensures { OnOk result (out.new ≡ out.old ++ printed (name_in (method_at program.now number))) }
{
    match program.method(number) {
        Some(method) => {
            let name = method.name().printed(alloc)?;
            out.extend_from_slice(name.as_slice())
        }
        None => out.push(b'.'),
    }
}

fn push_line(
    alloc: Global,
    out: &mut Bytes,
    program: &Program,
    call: &Record,
) -> Result<(), AllocError>
    ensures { OnOk result (out.new ≡ out.old ++ line_text (line_in program.now call.now)) }
{
    push_place(alloc, out, call)?;
    push_name(alloc, out, program, call.method)?;
    out.push(b' ')?;
    push_answer(alloc, out, &call.answer)?;
    out.push(b'\n')
}

/// The lines of calls, one after another, at the end.
fn push_lines(
    alloc: Global,
    out: &mut Bytes,
    program: &Program,
    calls: &[Record],
) -> Result<(), AllocError>
    ensures { OnOk result (out.new ≡ out.old ++ flat_map line_text (map (line_in program.now) calls.now)) }
{
    for call in calls {
        push_line(alloc, out, program, call)?;
    }
    Ok(())
}

/// The journal of a run of a program: the calls that stand in the history, in its order, and those that ran out of memory.
pub fn journal(
    alloc: Global,
    program: &Program,
    placed: &[Record],
    unplaced: &[Record],
) -> Result<Bytes, AllocError>
    ensures { IfOk result (λ text. text ≡ journal_text (map (line_in program.now) placed.now) (map (line_in program.now) unplaced.now)) }
{
    let mut out = Bytes::new(alloc);
    let count = placed.len();
    out.extend_from_slice(format!(in alloc; "history {count}\n")?.as_bytes())?;
    push_lines(alloc, &mut out, program, placed)?;
    let count = unplaced.len();
    out.extend_from_slice(format!(in alloc; "unplaced {count}\n")?.as_bytes())?;
    push_lines(alloc, &mut out, program, unplaced)?;
    Ok(out)
}
