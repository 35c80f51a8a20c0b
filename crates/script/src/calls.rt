//! What the phases of a script call.
ghost use Rattle.std.specs.Prelude.{◌≡◌, map, IfOk};
ghost use Rattle.jmodel.specs.format.Reading.{Gives};
ghost use Rattle.objects.specs.semantics.Program.{method_at};
ghost use Rattle.script.specs.Json.{or_refused, each_from, IsRefused};
ghost use Rattle.script.specs.Script.{number_named, not_callable as not_callable_at, known_at, call_in, lane_in, lanes_of as lanes_in, bag_of as bag_in, phase_of as phase_in, types_of as types_of_method};
ghost use Rattle.script.specs.Seen.{seen, values, lists as seen_lists};

use crate::arguments::{parameter_types, values_of};
use crate::lists::{PhaseLists, bag_path, lanes_path};
use crate::members::{list_at, object_at, text_at};
use crate::names::{Numbers, names_method, number_of, numbers_of};
use crate::phases::{Calls, PhaseCalls};
use crate::refusals::{at, under};
use crate::tree::Tree;
use const_pool::ClassFile;
use hierarchy::Program;
use jmodel::{Bytes, FieldType, Halt, Refusal, Value};
use std::alloc::{AllocError, Global};
use std::marker::Model;

/// A call of a method by its number, with its arguments.
#[derive(Drop)]
pub struct Known {
    pub method: usize,
    pub args: Vec<Value>,
}

impl Model for Known {
    ghost use Rattle.jmodel.specs.history.Schedule.{Known};

    ghost Value = { Known };

    ghost view = { λ c. record { method = c.method; args = c.args.items } };
}

/// What a lane calls in a phase.
#[derive(Drop)]
pub struct LaneCalls {
    pub calls: Vec<Known>,
}

impl Model for LaneCalls {
    ghost use Rattle.std.specs.Prelude.{List};
    ghost use Rattle.jmodel.specs.history.Schedule.{Known};

    ghost Value = { List Known };

    ghost view = { λ l. l.calls.items };
}

/// The methods that a script may call, and those that it may not: classes and their program.
#[derive(Drop)]
pub struct Methods<'a> {
    classes: &'a [&'a ClassFile],
    program: &'a Program,
    numbers: Numbers,
}

impl<'a> Model for Methods<'a> {
    ghost use Rattle.std.specs.Prelude.{◌≡◌, ℕ, List, map};
    ghost use Rattle.const_pool.specs.Firsts.{text_known};
    ghost use Rattle.script.specs.Script.{number_named};
    ghost use Rattle.script.specs.Scope.{Scope};

    ghost Value = { Scope };

    ghost view = { λ m. record { classes = map (λ c. c.now) m.classes.now; program = m.program.now } };

    ghost invariant = { λ m. (text : List ℕ) → text_known m.numbers text ≡ number_named m.program.now text };
}

/// The text at a path names no method that a script may call: none of the classes, or one that isn't marked.
fn not_callable(alloc: Global, classes: &[&ClassFile], path: Bytes, text: &[u8]) -> Halt
    ensures { IsRefused (not_callable_at (map (λ c. c.now) classes.now) path text.now) result }
{
    match names_method(alloc, classes, text) {
        Ok(true) => Halt::Refused(Refusal::NotAtomic(path)),
        Ok(false) => Halt::Refused(Refusal::UnknownMethod(path)),
        Err(_) => Halt::NoMemory,
    }
}

impl<'a> Methods<'a> {
    /// The methods of classes and their program.
    pub fn new(
        alloc: Global,
        classes: &'a [&'a ClassFile],
        program: &'a Program,
    ) -> Result<Self, AllocError>
        ensures { IfOk result (λ m. m ≡ record { classes = map (λ c. c.now) classes.now; program = program.now }) }
    {
        let numbers = numbers_of(alloc, program)?;
        Ok(Methods {
            classes,
            program,
            numbers,
        })
    }

    /// The number of the method that the text at a path names.
    fn number_of(&self, alloc: Global, path: Bytes, text: &[u8]) -> Result<usize, Halt>
        ensures { Gives (λ m. m) result (or_refused (not_callable_at self.now.classes path text.now) (number_named self.now.program text.now)) }
    {
        match number_of(&self.numbers, text) {
            Some(number) => Ok(number),
            None => Err(not_callable(alloc, self.classes, path, text)),
        }
    }

    /// The types of the parameters of the method of a number.
    fn types_of(&self, alloc: Global, number: usize) -> Result<Vec<FieldType>, AllocError>
        ensures { IfOk result (λ v. v.items ≡ types_of_method (method_at self.now.program number)) }
    {
        match self.program.method(number) {
            Some(method) => parameter_types(alloc, method.name().descriptor.as_slice()),
            None => Ok(Vec::new(alloc)),
        }
    }

    /// The call that the value at a path is.
    fn call_at(&self, alloc: Global, path: &[u8], value: &Tree) -> Result<Known, Halt>
        ensures { Gives (λ c. c) result (known_at self.now.classes self.now.program path.now (seen value.now)) }
    {
        object_at(alloc, path, value, &["call", "args"])?;
        let text = text_at(alloc, path, "call", value)?;
        let values = list_at(alloc, path, "args", value)?;
        let place = under(alloc, path, "call")?;
        let method = self.number_of(alloc, place, text.as_bytes())?;
        let place = under(alloc, path, "args")?;
        let types = self.types_of(alloc, method)?;
        if types.len() != values.len() {
            return Err(Halt::Refused(Refusal::BadArgs(place)));
        }
        let args = values_of(alloc, types.as_slice(), place.as_slice(), values)?;
        Ok(Known { method, args })
    }

    /// A call of the lane at a path.
    fn call_of(&self, alloc: Global, path: &[u8], index: usize, value: &Tree) -> Result<Known, Halt>
        ensures { Gives (λ c. c) result (call_in self.now.classes self.now.program path.now index (seen value.now)) }
    {
        let place = at(alloc, path, index)?;
        self.call_at(alloc, place.as_slice(), value)
    }

    /// What the lane at a path calls.
    fn lane_at(&self, alloc: Global, path: &[u8], values: &[Tree]) -> Result<LaneCalls, Halt>
        ensures { Gives (λ l. l) result (each_from (call_in self.now.classes self.now.program path.now) 0 (map seen values.now)) }
    {
        let mut calls = Vec::new(alloc);
        for (index, value) in values.iter().enumerate() {
            calls.push(self.call_of(alloc, path, index, value)?)?;
        }
        Ok(LaneCalls { calls })
    }

    /// What a lane calls of the phase whose lanes stand at a path.
    fn lane_of(
        &self,
        alloc: Global,
        path: &[u8],
        lane: usize,
        values: &[Tree],
    ) -> Result<LaneCalls, Halt>
        ensures { Gives (λ l. l) result (lane_in self.now.classes self.now.program path.now lane (map seen values.now)) }
    {
        let place = at(alloc, path, lane)?;
        self.lane_at(alloc, place.as_slice(), values)
    }

    /// What the lanes call that stand at a path.
    fn lanes_at(
        &self,
        alloc: Global,
        path: &[u8],
        lists: &[&[Tree]],
    ) -> Result<Vec<LaneCalls>, Halt>
        ensures { Gives (λ v. v.items) result (each_from (lane_in self.now.classes self.now.program path.now) 0 (map values lists.now)) }
    {
        let mut lanes = Vec::new(alloc);
        for (lane, values) in lists.iter().enumerate() {
            lanes.push(self.lane_of(alloc, path, lane, values)?)?;
        }
        Ok(lanes)
    }

    /// What the lanes of a phase call.
    fn lanes_of(
        &self,
        alloc: Global,
        phase: usize,
        lists: &[&[Tree]],
    ) -> Result<Vec<LaneCalls>, Halt>
        ensures { Gives (λ v. v.items) result (lanes_in self.now.classes self.now.program phase (map values lists.now)) }
    {
        let path = lanes_path(alloc, phase)?;
        self.lanes_at(alloc, path.as_slice(), lists)
    }

    /// The calls of a phase that is a bag.
    fn bag_of(&self, alloc: Global, phase: usize, calls: &[Tree]) -> Result<LaneCalls, Halt>
        ensures { Gives (λ l. l) result (bag_in self.now.classes self.now.program phase (map seen calls.now)) }
    {
        let path = bag_path(alloc, phase)?;
        self.lane_at(alloc, path.as_slice(), calls)
    }

    /// What a phase calls, of a script of so many lanes.
    fn phase_at(
        &self,
        alloc: Global,
        lanes: u64,
        phase: usize,
        lists: &PhaseLists<'_>,
    ) -> Result<PhaseCalls, Halt>
        ensures { Gives (λ p. p) result (phase_in self.now.classes self.now.program lanes phase (seen_lists lists.now)) }
    {
        let calls = match lists {
            PhaseLists::Lanes(lists) => {
                Calls::Lanes(self.lanes_of(alloc, phase, lists.lanes.as_slice())?)
            }
            PhaseLists::Bag(calls) => Calls::Bag {
                lanes,
                calls: self.bag_of(alloc, phase, calls)?,
            },
        };
        Ok(PhaseCalls { calls })
    }

    /// What the phases of a script of so many lanes call.
    pub fn phases_of(
        &self,
        alloc: Global,
        lanes: u64,
        lists: &[PhaseLists<'_>],
    ) -> Result<Vec<PhaseCalls>, Halt>
        ensures { Gives (λ v. v.items) result (each_from (phase_in self.now.classes self.now.program lanes) 0 (map seen_lists lists.now)) }
    {
        let mut phases = Vec::new(alloc);
        for (index, lists) in lists.iter().enumerate() {
            phases.push(self.phase_at(alloc, lanes, index, lists)?)?;
        }
        Ok(phases)
    }
}
