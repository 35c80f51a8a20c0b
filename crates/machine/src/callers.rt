//! The frames of the callers.
ghost use Rattle.std.specs.Prelude.{◌≡◌, [], ◌∷◌, OnOk, IfOk, MatchOption, IfSome, count_by, length, ◌+◌, ◌<◌, ◌^◌};
ghost use Rattle.objects.specs.semantics.Step.{Frame as JFrame};
ghost use Rattle.objects.specs.semantics.Program.{is_counted};

use crate::frame::Frame;
use hierarchy::program::Program;
use std::alloc::{AllocError, Global};
use std::marker::Model;

/// The frames below the current one, and frames that ended, whose memory the next ones take.
pub struct Callers {
    items: Vec<Frame>,
    ended: Vec<Frame>,
}

impl Drop for Callers {
    fn drop(self) {
        let Self { items: _, ended: _ } = self;
    }
}

impl Model for Callers {
    ghost use Rattle.std.specs.Prelude.{List, reverse, All, ◌+◌, ◌<◌, ◌^◌};
    ghost use Rattle.objects.specs.semantics.Step.{Frame as JFrame};

    ghost Value = { List JFrame };

    // the innermost first
    ghost view = { λ c. reverse c.items.items };

    // each goes on after its call
    ghost invariant = { λ c. All (λ (f : JFrame). f.pc + 1 < 2 ^ 64) c.items.items };
}

impl Callers {
    /// No callers. No memory.
    pub fn new(alloc: Global) -> Self
        ensures { result ≡ [] }
    {
        Callers {
            items: Vec::new(alloc),
            ended: Vec::new(alloc),
        }
    }

    /// A frame to be entered, whose slots are of no use, with memory of one that ended, if there is one.
    #[inline(always)]
    pub(crate) fn spare(&mut self, alloc: Global) -> Frame
        ensures { self.new ≡ self.old }
    {
        match self.ended.pop() {
            Some(frame) => frame,
            None => Frame::empty(alloc),
        }
    }

    /// Keeps the memory of a frame that ended, or gives it back where there is none to keep it in.
    #[inline(always)]
    pub(crate) fn keep(&mut self, frame: Frame)
        ensures { self.new ≡ self.old }
    {
        let _ = self.ended.push(frame);
    }

    /// Ends all frames.
    pub(crate) fn clear(&mut self)
        ensures { self.new ≡ [] }
    {
        self.items.clear();
    }

    /// How many frames these are.
    pub(crate) fn len(&self) -> usize
        ensures { result ≡ length self.now }
    {
        self.items.len()
    }

    /// Puts a frame innermost.
    #[inline(always)]
    pub fn push(&mut self, frame: Frame) -> Result<(), AllocError>
        requires { frame.pc + 1 < 2 ^ 64 }
        ensures { OnOk result (self.new ≡ frame ∷ self.old) }
    {
        self.items.push(frame)?;
        Ok(())
    }

    /// Takes the innermost frame, if there is one.
    #[inline(always)]
    pub fn pop(&mut self) -> Option<Frame>
        ensures frame { MatchOption result ((self.old ≡ []) × (self.new ≡ [])) (λ f. self.old ≡ f ∷ self.new) }
        ensures next { IfSome result (λ f. f.pc + 1 < 2 ^ 64) }
    {
        self.items.pop()
    }

    /// How many of the frames count.
    pub fn depth(&self, program: &Program) -> usize
        ensures { result ≡ count_by (λ (f : JFrame). is_counted program.now f.method) self.now }
    {
        self.items
            .iter()
            .rev()
            .filter(|f| f.is_counted(program))
            .count()
    }

    /// The same frames with slots of their own.
    pub fn copy(&self, alloc: Global) -> Result<Self, AllocError>
        ensures { IfOk result (λ c. c ≡ self.now) }
    {
        let mut callers = Callers::new(alloc);
        for frame in &self.items {
            let mut copied = Frame::empty(alloc);
            copied.set_copy(frame)?;
            callers.push(copied)?;
        }
        Ok(callers)
    }
}
