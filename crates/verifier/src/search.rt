//! The search for a typing: a table so far, and the places that are still to be looked at.
ghost use Rattle.std.specs.Prelude.{◌≡◌, ℕ, ◌<◌, ◌≤◌, true, false, slice_get, IfOk, IfSome, IfNone, length, option_copied, replicate};
ghost use Rattle.objects.specs.typing.Typing.{first_types, is_guarded, caught_type, types_at};
ghost use Rattle.objects.specs.typing.Source.{AreTypes};
ghost use Rattle.verifier.specs.Check.{stays};
ghost use Rattle.verifier.specs.Order.{joined};
ghost use Rattle.verifier.specs.Search.{after_all, are_locals_after, are_throwable, caught, change_of, each_to, Flows, is_alike, is_entered, is_ready, IsPour, IsTaken, merged, next_local, starting, thrown, waits};
ghost use Rattle.verifier.specs.Settled.{IsMarked};

use crate::kept::Kept;
use crate::merging::{joined, settled};
use crate::names::{conflict_class, name_read, throwable_class};
use crate::order::{class_type, fits_in, is_below};
use crate::settling::is_top_itself;
use hierarchy::{Method, Program, TypeEntry, Typing};
use jmodel::VType;
use objects::op::{Catch, Catches};
use std::alloc::{AllocError, Global};
use std::collections::BTreeSet;
use std::marker::Model;
use type_lists::{Parts, SharedType, TypeStack, TypeTree};

/// A table, the places whose types have changed since their instructions were looked at, the place taken last, and the types
/// that were made.
#[derive(Drop)]
pub struct Search {
    table: Vec<Option<TypeEntry>>,
    waiting: BTreeSet<usize>,
    at: usize,
    kept: Kept,
}

impl Model for Search {
    ghost use Rattle.verifier.specs.Search.{State};

    ghost Value = { State };

    ghost view = { λ s. record { table = s.table.items; waiting = s.waiting.keys } };
}

/// Whether a local has the first place of a long, where the local before it had one or not; none where the two don't go
/// together.
fn next_local(after: bool, item: &VType) -> Option<bool>
    ensures { result ≡ next_local after item.now }
{
    match item {
        VType::Long if !after => Some(true),
        VType::Second if after => Some(false),
        VType::Long | VType::Second => None,
        _ if !after => Some(false),
        _ => None,
    }
}

/// Whether the last of so many locals of one type has the first place of a long, where the local before them had one or not.
fn run_after(after: bool, item: &VType, count: usize) -> Option<bool>
    ensures { result ≡ after_all after (replicate count item.now) }
{
    let mut after = after;
    for _ in 0..count {
        let Some(next) = next_local(after, item) else {
            return None;
        };
        if next == after {
            return Some(after);
        }
        after = next;
    }
    Some(after)
}

/// Whether the last of some locals has the first place of a long, where the local before them had one or not; none where two
/// of them don't go together.
fn after_all(after: bool, types: &TypeTree) -> Option<bool>
    ensures { result ≡ after_all after types.now }
{
    match types.parts() {
        Parts::Empty => Some(after),
        Parts::Run(item) => run_after(after, item.as_type(), types.len()),
        Parts::Fork(left, right) => match after_all(after, left) {
            Some(between) => after_all(between, right),
            None => None,
        },
    }
}

/// Whether locals may have these types.
#[tactic(auto, using(crate::proofs::Afters::ends_are))]
pub fn are_locals(types: &TypeTree) -> bool
    ensures { result ≡ are_locals_after false types.now }
{
    matches!(after_all(false, types), Some(false))
}

/// Whether a frame of the method may have this stack.
pub fn is_ready(method: &Method, entry: &TypeEntry) -> bool
    ensures { result ≡ is_ready method.now entry.now }
{
    entry.stack().len() <= method.max_stack() && entry.stack().is_under(false)
}

/// Whether the types that a method begins with are those of a frame.
pub fn is_entered(method: &Method, first: &TypeEntry) -> bool
    requires { first.now ≡ first_types method.now }
    ensures { result ≡ is_entered method.now }
{
    first.locals().len() == method.entry().locals && are_locals(first.locals())
}

/// What types do to those of a place that they flow to.
enum Change {
    Nothing,
    Put(TypeEntry),
    Refused,
}

/// Whether two entries have as many places.
fn is_alike(a: &TypeEntry, b: &TypeEntry) -> bool
    ensures { result ≡ is_alike a.now b.now }
{
    a.locals().len() == b.locals().len() && a.stack().len() == b.stack().len()
}

/// What types do to those of a place that has some.
fn merged(
    alloc: Global,
    program: &Program,
    to: usize,
    out: &TypeEntry,
    entry: &TypeEntry,
    kept: &mut Kept,
) -> Result<Change, AllocError>
    ensures { IfOk result (λ x. x ≡ merged program.now to out.now entry.now) }
{
    if !is_alike(out, entry) {
        return Ok(Change::Refused);
    }
    if fits_in(program, out, entry) {
        return Ok(Change::Nothing);
    }
    if to == 0 {
        return Ok(Change::Refused);
    }
    Ok(Change::Put(kept.shared(joined(alloc, program, entry, out)?)?))
}

/// Types that flow on. Where they are marked as settled, they are within themselves.
#[derive(Drop)]
pub struct Outflow {
    pub types: TypeEntry,
    pub settled: bool,
}

/// The narrowest types above some. They are shared where they are marked as settled.
#[tactic(auto, using(crate::proofs::Settled::fits_settled))]
fn narrowest(
    alloc: Global,
    program: &Program,
    out: &Outflow,
    kept: &mut Kept,
) -> Result<TypeEntry, AllocError>
    requires types { AreTypes program.now }
    requires marked { IsMarked program.now out.now }
    ensures { IfOk result (λ h. h ≡ joined program.now out.now.types out.now.types) }
{
    if out.settled {
        out.types.share()
    } else {
        kept.shared(settled(alloc, program, &out.types)?)
    }
}

/// What types do to those of a place, if the table has the place.
fn change_at(
    alloc: Global,
    program: &Program,
    table: &[Option<TypeEntry>],
    to: usize,
    out: &Outflow,
    kept: &mut Kept,
) -> Result<Change, AllocError>
    requires types { AreTypes program.now }
    requires marked { IsMarked program.now out.now }
    ensures { IfOk result (λ x. x ≡ change_of program.now to out.now.types (slice_get table.now to)) }
{
    match table.get(to) {
        None => Ok(Change::Refused),
        Some(None) => Ok(Change::Put(narrowest(alloc, program, out, kept)?)),
        Some(Some(entry)) => merged(alloc, program, to, &out.types, entry, kept),
    }
}

/// The type of the exceptions that an entry takes.
fn caught_type(alloc: Global, program: &Program, catches: &Catches) -> Result<VType, AllocError>
    ensures { IfOk result (λ t. t ≡ caught_type program.now catches.now) }
{
    match catches {
        Catches::Conflict => class_type(alloc, conflict_class()),
        Catches::Any => class_type(alloc, throwable_class()),
        Catches::Of(name) => Ok(VType::Ref(name_read(alloc, program, name.as_slice())?)),
    }
}

/// Whether an entry guards a place.
pub fn is_guarded(entry: &Catch, pc: usize) -> bool
    ensures { result ≡ is_guarded entry.now pc }
{
    entry.from <= pc && pc < entry.to
}

/// An exception of an entry over the locals of others.
pub fn thrown(
    alloc: Global,
    program: &Program,
    entry: &TypeEntry,
    catch: &Catch,
) -> Result<TypeEntry, AllocError>
    ensures { IfOk result (λ h. h ≡ thrown program.now entry.now.locals entry.now.built catch.now) }
{
    let of = SharedType::new(alloc, caught_type(alloc, program, &catch.catches)?)?;
    let stack = TypeStack::new().push(alloc, of)?;
    Ok(TypeEntry::new(entry.locals().share()?, stack, entry.built()))
}

/// An exception of an entry over the locals of others.
fn thrown_over(
    alloc: Global,
    program: &Program,
    over: &Outflow,
    catch: &Catch,
) -> Result<Outflow, AllocError>
    requires marked { IsMarked program.now over.now }
    ensures types { IfOk result (λ x. x.types ≡ thrown program.now over.now.types.locals over.now.types.built catch.now) }
    ensures marked { IfOk result (IsMarked program.now) }
{
    let types = thrown(alloc, program, &over.types, catch)?;
    let settled = over.settled && is_top_itself(program, types.stack());
    Ok(Outflow { types, settled })
}

/// Whether each entry that guards a place takes exceptions.
fn are_throwable(
    alloc: Global,
    program: &Program,
    catches: &[Catch],
    pc: usize,
) -> Result<bool, AllocError>
    ensures { IfOk result (λ b. b ≡ are_throwable program.now catches.now pc) }
{
    for entry in catches {
        if is_guarded(entry, pc) {
            let of = caught_type(alloc, program, &entry.catches)?;
            if !is_below(program, &of, throwable_class()) {
                return Ok(false);
            }
        }
    }
    Ok(true)
}

/// Whether what an instruction leaves stays within the stack, and each entry that guards its place takes exceptions.
pub fn stays(
    alloc: Global,
    program: &Program,
    method: &Method,
    pc: usize,
    left: &TypeEntry,
) -> Result<bool, AllocError>
    ensures { IfOk result (λ b. b ≡ stays program.now method.now pc left.now) }
{
    if left.stack().len() > method.max_stack() {
        return Ok(false);
    }
    are_throwable(alloc, program, method.catches(), pc)
}

impl Search {
    /// The search at its start: the first instruction is to be looked at.
    pub fn start(alloc: Global, method: &Method, first: TypeEntry) -> Result<Self, AllocError>
        requires some { 0 < length method.now.ops }
        requires first { first ≡ first_types method.now }
        ensures { IfOk result (λ s. s ≡ starting method.now) }
    {
        let mut table = Vec::new(alloc);
        table.push(Some(first))?;
        let others = method.ops().len() - 1;
        for _ in 0..others {
            table.push(None)?;
        }
        let mut waiting = BTreeSet::new(alloc);
        waiting.insert(0)?;
        Ok(Search {
            table,
            waiting,
            at: 0,
            kept: Kept::new(alloc),
        })
    }

    /// The least place that waits from one place on; none where that lies behind the last one.
    fn least_from(&self, from: usize, last: usize) -> Option<usize>
        ensures none { IfNone result ((q : ℕ) → from ≤ q → q ≤ last → waits self.now.waiting q ≡ false) }
        ensures waiting { IfSome result (λ pc. waits self.now.waiting pc ≡ true) }
        ensures inside { IfSome result (λ pc. pc ≤ last) }
    {
        let pc = *self.waiting.range(from..).next()?;
        if pc > last {
            return None;
        }
        Some(pc)
    }

    /// Takes a place that waits, up to a last one; none where no place up to it waits. The search goes in passes: the least
    /// place is taken that waits from the one taken before on. Where none waits there, a new pass begins with the least of all.
    pub fn next(&mut self, last: usize) -> Option<usize>
        ensures none { IfNone result ((q : ℕ) → q ≤ last → waits self.old.waiting q ≡ false) }
        ensures waiting { IfSome result (λ pc. waits self.old.waiting pc ≡ true) }
        ensures inside { IfSome result (λ pc. pc ≤ last) }
        ensures taken { IfSome result (λ pc. IsTaken pc self.old.waiting self.new.waiting) }
        ensures table { self.new.table ≡ self.old.table }
    {
        let pc = match self.least_from(self.at, last) {
            Some(pc) => pc,
            None => self.least_from(0, last)?,
        };
        self.waiting.remove(&pc);
        self.at = pc;
        Some(pc)
    }

    /// Types that an instruction made, in the memory of equal ones that were made before.
    pub fn shared(&mut self, made: Outflow) -> Result<Outflow, AllocError>
        ensures same { IfOk result (λ x. x ≡ made) }
        ensures search { self.new ≡ self.old }
    {
        let Outflow { types, settled } = made;
        let types = self.kept.shared(types)?;
        Ok(Outflow { types, settled })
    }

    /// Lets types flow to a place. False where the place can't take them.
    fn flow_to(
        &mut self,
        alloc: Global,
        program: &Program,
        to: usize,
        out: &Outflow,
    ) -> Result<bool, AllocError>
        requires types { AreTypes program.now }
        requires marked { IsMarked program.now out.now }
        ensures { IfOk result (λ b. IsPour program.now to out.now.types self.old self.new b) }
    {
        match change_at(alloc, program, &self.table, to, out, &mut self.kept)? {
            Change::Nothing => Ok(true),
            Change::Refused => Ok(false),
            Change::Put(types) => {
                self.waiting.insert(to)?;
                self.table[to] = Some(types);
                Ok(true)
            }
        }
    }

    /// Lets types flow to each place where an instruction goes on. False where one can't take them.
    pub fn flow_each(
        &mut self,
        alloc: Global,
        program: &Program,
        places: &[usize],
        out: &Outflow,
    ) -> Result<bool, AllocError>
        requires types { AreTypes program.now }
        requires marked { IsMarked program.now out.now }
        ensures { IfOk result (λ b. Flows program.now (each_to places.now out.now.types) self.old self.new b) }
    {
        for to in places {
            if !self.flow_to(alloc, program, *to, out)? {
                return Ok(false);
            }
        }
        Ok(true)
    }

    /// Lets the exceptions of an entry flow, over these locals, to its place. False where that can't take them.
    fn flow_thrown(
        &mut self,
        alloc: Global,
        program: &Program,
        entry: &Catch,
        over: &Outflow,
    ) -> Result<bool, AllocError>
        requires types { AreTypes program.now }
        requires marked { IsMarked program.now over.now }
        ensures { IfOk result (λ b. IsPour program.now entry.now.at (thrown program.now over.now.types.locals over.now.types.built entry.now) self.old self.new b) }
    {
        let out = thrown_over(alloc, program, over, entry)?;
        self.flow_to(alloc, program, entry.at, &out)
    }

    /// Lets the exceptions of a place flow, over these locals, to the place of each entry that guards it. False where one
    /// can't take them.
    pub fn flow_caught(
        &mut self,
        alloc: Global,
        program: &Program,
        catches: &[Catch],
        pc: usize,
        over: &Outflow,
    ) -> Result<bool, AllocError>
        requires types { AreTypes program.now }
        requires marked { IsMarked program.now over.now }
        ensures { IfOk result (λ b. Flows program.now (caught program.now catches.now pc over.now.types.locals over.now.types.built) self.old self.new b) }
    {
        for entry in catches {
            if is_guarded(entry, pc) && !self.flow_thrown(alloc, program, entry, over)? {
                return Ok(false);
            }
        }
        Ok(true)
    }

    /// The types of a place, if it has some.
    pub fn entry(&self, pc: usize) -> Option<&TypeEntry>
        ensures { option_copied result ≡ types_at self.now.table pc }
    {
        self.table.get(pc)?.as_ref()
    }

    /// The table.
    pub fn into_typing(self) -> Typing
        ensures { result ≡ self.table }
    {
        Typing::from_vec(self.table)
    }
}
