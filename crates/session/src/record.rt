//! What a lane is asked for, and what is kept of its calls.
use jmodel::{Answer, Stamp};
use std::alloc::{AllocError, Global};
use std::marker::Model;

/// Where calls stand in a script: their phase, their lane, and the place of the first of them in that lane.
#[derive(Clone, Copy)]
pub struct Place {
    pub phase: u32,
    pub lane: u8,
    pub first: u32,
}

/// What is kept of a call: where it stands in the script, the number of its method, its stamp and its answer.
#[derive(Drop)]
pub struct Record {
    pub phase: u32,
    pub lane: u8,
    pub index: u32,
    pub method: usize,
    pub stamp: Stamp,
    pub answer: Answer,
}

/// The calls of a lane that were made.
#[derive(Drop)]
pub struct Lane {
    /// Those that have a place in the history, in the lane's order.
    pub placed: Vec<Record>,
    /// Those that ran out of memory, in the lane's order.
    pub unplaced: Vec<Record>,
    /// How many calls were made: all, or those before the first whose attempts were used up.
    pub made: usize,
    /// How many words of the lane's region are used after them.
    pub used: u64,
}

impl Place {
    ghost use Rattle.std.specs.Prelude.{◌≡◌, ◌+◌, ◌≤◌};

    /// The place so many calls on in its lane.
    pub(crate) fn onward(self, count: usize) -> Place
        requires { self.first + count ≤ 100000 }
        ensures { result ≡ record self { first = self.first + count } }
    {
        Place {
            phase: self.phase,
            lane: self.lane,
            first: self.first + count as u32,
        }
    }
}

impl Record {
    ghost use Rattle.std.specs.Prelude.{◌≡◌};
    ghost use Rattle.session.specs.Adds.{is_spent};

    /// Whether the attempts of the call were used up, so that it was not made.
    pub(crate) fn is_spent(&self) -> bool
        ensures { result ≡ is_spent self.now.answer }
    {
        matches!(self.answer, Answer::Spent)
    }
}

impl Lane {
    ghost use Rattle.std.specs.Prelude.{◌<◌, OnOk};
    ghost use Rattle.session.specs.Adds.{IsEmpty, AddsRecord};

    /// A lane of which no call was made yet, with so many words of its region used. No memory.
    pub(crate) fn new(alloc: Global, used: u64) -> Self
        ensures { IsEmpty result used }
    {
        Lane {
            placed: Vec::new(alloc),
            unplaced: Vec::new(alloc),
            made: 0,
            used,
        }
    }

    /// Keeps the record of one call more, after which so many words of the region are used.
    pub(crate) fn add(&mut self, one: Record, used: u64) -> Result<(), AllocError>
        requires { self.old.made < 100000 }
        ensures { OnOk result (AddsRecord self.old self.new one used) }
    {
        if matches!(one.answer, Answer::NoMemory) {
            self.unplaced.push(one)?;
        } else {
            self.placed.push(one)?;
        }
        self.made += 1;
        self.used = used;
        Ok(())
    }
}
