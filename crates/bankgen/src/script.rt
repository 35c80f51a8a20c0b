//! The text of the script.
ghost use Rattle.std.specs.Prelude.{ℕ, ◌≡◌, ◌<◌, ◌++◌, IfOk, OnOk, map};
ghost use Rattle.bankgen.specs.Script.{transfer_text, list_text, lane_calls, dealt as dealt_numbers, numbers, script_text};
ghost use Rattle.bankgen.specs.Transfers.{transfer};
ghost use Rattle.bankgen.specs.Separator.{separator};

use crate::transfers::{Transfer, transfers};
use jmodel::Bytes;
use std::alloc::{AllocError, Global};

fn push_transfer(alloc: Global, out: &mut Bytes, made: Transfer) -> Result<(), AllocError>
    ensures { OnOk result (out.new ≡ out.old ++ transfer_text made) }
{
    let Transfer { from, to, amount } = made;
    let text = format!(in alloc;
        "{{\"call\":\"Bank.transfer(III)I\",\"args\":[{from},{to},{amount}]}}"
    )?;
    out.extend_from_slice(text.as_bytes())
}

// The transfers that are dealt to a lane.
fn dealt(
    alloc: Global,
    drawn: &[Transfer],
    lanes: u64,
    lane: u64,
) -> Result<Vec<Transfer>, AllocError>
    requires { 0 < lanes }
    ensures { IfOk result (λ v. (seed accounts calls : ℕ) → drawn.now ≡ map (transfer seed accounts) (numbers calls)
        → v.items ≡ map (transfer seed accounts) (dealt_numbers calls lanes lane)) }
{
    let mut own = Vec::new(alloc);
    for (k, made) in drawn.iter().enumerate() {
        if k as u64 % lanes == lane {
            own.push(*made)?;
        }
    }
    Ok(own)
}

// What stands before the item of this number in a list: a comma, but before the first nothing.
fn push_separator(out: &mut Bytes, number: u64) -> Result<(), AllocError>
    ensures { OnOk result (out.new ≡ out.old ++ separator number) }
{
    if number == 0 {
        return Ok(());
    }
    out.push(b',')
}

// Calls in brackets, with commas between them.
fn push_calls(alloc: Global, out: &mut Bytes, calls: &[Transfer]) -> Result<(), AllocError>
    ensures { OnOk result (out.new ≡ out.old ++ list_text (map transfer_text calls.now)) }
{
    out.push(b'[')?;
    for (i, made) in calls.iter().enumerate() {
        push_separator(out, i as u64)?;
        push_transfer(alloc, out, *made)?;
    }
    out.push(b']')
}

// The calls of a lane.
fn push_lane(
    alloc: Global,
    out: &mut Bytes,
    drawn: &[Transfer],
    lanes: u64,
    lane: u64,
) -> Result<(), AllocError>
    requires { 0 < lanes }
    ensures { (seed accounts calls : ℕ) → drawn.now ≡ map (transfer seed accounts) (numbers calls)
        → OnOk result (out.new ≡ out.old ++ list_text (lane_calls seed accounts calls lanes lane)) }
{
    let own = dealt(alloc, drawn, lanes, lane)?;
    push_calls(alloc, out, own.as_slice())
}

// The calls of each lane of the first phase, in brackets.
fn push_lanes(
    alloc: Global,
    out: &mut Bytes,
    drawn: &[Transfer],
    lanes: u64,
) -> Result<(), AllocError>
    requires { 0 < lanes }
    ensures { (seed accounts calls : ℕ) → drawn.now ≡ map (transfer seed accounts) (numbers calls)
        → OnOk result (out.new ≡ out.old ++ list_text (map list_text (map (lane_calls seed accounts calls lanes) (numbers lanes)))) }
{
    out.push(b'[')?;
    for lane in 0..lanes {
        push_separator(out, lane)?;
        push_lane(alloc, out, drawn, lanes, lane)?;
    }
    out.push(b']')
}

/// The script of so many calls on so many lanes.
pub fn script(
    alloc: Global,
    seed: u32,
    accounts: u64,
    calls: u64,
    lanes: u64,
) -> Result<Bytes, AllocError>
    requires accounts { 0 < accounts }
    requires lanes { 0 < lanes }
    ensures { IfOk result (λ text. text ≡ script_text seed accounts calls lanes) }
{
    let drawn = transfers(alloc, seed, accounts, calls)?;
    let head = format!(in alloc; "{{\"form\":1,\"lanes\":{lanes},\"phases\":[{{\"lanes\":")?;
    let mut text = Bytes::from_slice(alloc, head.as_bytes())?;
    push_lanes(alloc, &mut text, drawn.as_slice(), lanes)?;
    text.extend_from_slice(b"},{\"lanes\":[[{\"call\":\"Bank.total()I\",\"args\":[]}]]}]}")?;
    Ok(text)
}
