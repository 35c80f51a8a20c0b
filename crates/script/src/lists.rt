//! The lists of calls of a script, by phase and lane.
ghost use Rattle.std.specs.Prelude.{◌≡◌, ◌<◌, ◌^◌, List, length, map, codes, IfOk};
ghost use Rattle.jmodel.specs.format.Reading.{Gives};
ghost use Rattle.script.specs.Script.{lanes_path as lanes_path_of, bag_path as bag_path_of, lanes_at as lanes_in_phase_at, list_in, lists_of_lanes as lists_in_lanes, lists_at as lists_in_phase_at, lists_of_phase as lists_in_phase, lists_of as lists_in_script};
ghost use Rattle.script.specs.Json.{each_from};
ghost use Rattle.script.specs.Seen.{seen, values, lane_lists, lists};

use crate::head::Head;
use crate::members::{is_object_with, list_at, list_of};
use crate::refusals::{at, bad_shape, under};
use crate::tree::Tree;
use jmodel::{Bytes, Halt};
use std::alloc::{AllocError, Global};

/// The lists of calls of a phase, by lane.
#[derive(Drop)]
pub struct LaneLists<'a> {
    pub lanes: Vec<&'a [Tree]>,
}

/// The calls of a phase: a list for each lane, or that of a bag.
#[derive(Drop)]
pub enum PhaseLists<'a> {
    Lanes(LaneLists<'a>),
    Bag(&'a [Tree]),
}

/// The path of the lists of calls of a phase.
pub fn lanes_path(alloc: Global, phase: usize) -> Result<Bytes, AllocError>
    ensures { IfOk result (λ path. path ≡ lanes_path_of phase) }
{
    let path = at(alloc, b"/phases", phase)?;
    under(alloc, path.as_slice(), "lanes")
}

/// The path of the list of calls of a bag.
pub fn bag_path(alloc: Global, phase: usize) -> Result<Bytes, AllocError>
    ensures { IfOk result (λ path. path ≡ bag_path_of phase) }
{
    let path = at(alloc, b"/phases", phase)?;
    under(alloc, path.as_slice(), "bag")
}

/// The list of calls that the value at a path is.
fn calls_at<'a>(
    alloc: Global,
    path: &[u8],
    lane: usize,
    value: &'a Tree,
) -> Result<&'a [Tree], Halt>
    ensures { Gives values result (list_in path.now lane (seen value.now)) }
{
    match list_of(value) {
        Some(calls) => Ok(calls),
        None => Err(bad_shape(alloc, at(alloc, path, lane)?.as_slice())),
    }
}

/// The lists of calls that the items of a list at a path are.
fn lists_in<'a>(alloc: Global, path: &[u8], values: &'a [Tree]) -> Result<LaneLists<'a>, Halt>
    ensures { Gives lane_lists result (each_from (list_in path.now) 0 (map seen values.now)) }
{
    let mut lanes = Vec::new(alloc);
    for (lane, value) in values.iter().enumerate() {
        lanes.push(calls_at(alloc, path, lane, value)?)?;
    }
    Ok(LaneLists { lanes })
}

/// The lists of calls that the items of a list at a path are, at most as many as a script has lanes.
fn lists_of_lanes<'a>(
    alloc: Global,
    head: Head,
    path: &[u8],
    values: &'a [Tree],
) -> Result<LaneLists<'a>, Halt>
    ensures { Gives lane_lists result (lists_in_lanes head.lanes path.now (map seen values.now)) }
{
    if values.len() as i64 > head.lanes {
        return Err(bad_shape(alloc, path));
    }
    lists_in(alloc, path, values)
}

/// The lists of calls of the lanes of the phase at a path, at most as many as the script has lanes.
fn lanes_at<'a>(
    alloc: Global,
    head: Head,
    path: &[u8],
    phase: &'a Tree,
) -> Result<LaneLists<'a>, Halt>
    ensures { Gives lane_lists result (lanes_in_phase_at head.lanes path.now (seen phase.now)) }
{
    let values = list_at(alloc, path, "lanes", phase)?;
    let place = under(alloc, path, "lanes")?;
    lists_of_lanes(alloc, head, place.as_slice(), values)
}

/// The lists of calls of the phase at a path, which has exactly the key `lanes` or exactly the key `bag`.
fn lists_at<'a>(
    alloc: Global,
    head: Head,
    path: &[u8],
    phase: &'a Tree,
) -> Result<PhaseLists<'a>, Halt>
    ensures { Gives lists result (lists_in_phase_at head.lanes path.now (seen phase.now)) }
{
    if is_object_with(phase, "lanes") {
        Ok(PhaseLists::Lanes(lanes_at(alloc, head, path, phase)?))
    } else if is_object_with(phase, "bag") {
        Ok(PhaseLists::Bag(list_at(alloc, path, "bag", phase)?))
    } else {
        Err(bad_shape(alloc, path))
    }
}

/// The lists of calls of the phase of a number.
fn lists_of_phase<'a>(
    alloc: Global,
    head: Head,
    index: usize,
    phase: &'a Tree,
) -> Result<PhaseLists<'a>, Halt>
    ensures { Gives lists result (lists_in_phase head.lanes index (seen phase.now)) }
{
    let path = at(alloc, b"/phases", index)?;
    lists_at(alloc, head, path.as_slice(), phase)
}

/// The lists of calls of phases, by phase and lane.
fn lists_of_phases<'a>(
    alloc: Global,
    head: Head,
    values: &'a [Tree],
) -> Result<Vec<PhaseLists<'a>>, Halt>
    ensures { Gives (λ v. map lists v.items) result (each_from (lists_in_phase head.lanes) 0 (map seen values.now)) }
{
    let mut phases = Vec::new(alloc);
    for (index, phase) in values.iter().enumerate() {
        phases.push(lists_of_phase(alloc, head, index, phase)?)?;
    }
    Ok(phases)
}

/// The lists of calls of a script, by phase and lane.
pub fn lists_of<'a>(
    alloc: Global,
    head: Head,
    script: &'a Tree,
) -> Result<Vec<PhaseLists<'a>>, Halt>
    ensures { Gives (λ v. map lists v.items) result (lists_in_script head.lanes (seen script.now)) }
{
    let values = list_at(alloc, b"", "phases", script)?;
    lists_of_phases(alloc, head, values)
}
