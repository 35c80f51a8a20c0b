//! The Code attribute (JVM Specification, Java SE 7, section 4.7.3).
ghost use Rattle.std.specs.Prelude.{◌≡◌, [], Some, IsNone};
ghost use Rattle.jmodel.specs.format.ClassFile.{Code as Form};
ghost use Rattle.jmodel.specs.format.ClassRules.{SpellsCode};
ghost use Rattle.jmodel.specs.declared.refusal.Halt.TheVariants as halts;
ghost use Rattle.jmodel.specs.declared.refusal.Refusal.TheVariants.{BadCode};
ghost use Rattle.jmodel.specs.format.Reading.{Gives, items_at};
ghost use Rattle.jmodel.specs.format.ClassReading.{handler_fits as fits, handler_at as handler, handlers_at as handlers, body_at as body, code_at as code, code_of, AnswersCode, AnswersCodeAs};

use crate::attributes::attributes_at;
use crate::class_file::Attribute;
use crate::fields::{run_at, u2_at, u4_at};
use crate::pool::Pool;
use jmodel::{Bytes, Halt, Handler, NoMemory, Refusal};
use std::alloc::Global;
use std::marker::Model;

/// What a Code attribute holds.
#[derive(Debug)]
pub struct Code {
    pub max_stack: u16,
    pub max_locals: u16,
    pub code: Bytes,
    pub handlers: Vec<Handler>,
    pub attributes: Vec<Attribute>,
}

impl Drop for Code {
    fn drop(self) {
        let Self {
            max_stack: _,
            max_locals: _,
            code: _,
            handlers: _,
            attributes: _,
        } = self;
    }
}

impl Model for Code {
    ghost use Rattle.jmodel.specs.format.ClassFile.{Code as Form};

    ghost Value = { Form };

    ghost view = { λ k. record { max_stack = k.max_stack; max_locals = k.max_locals; code = k.code; handlers = k.handlers.items; attributes = k.attributes.items } };
}

// What a fault in the body comes to: the caller knows the method.
fn bad_code(alloc: Global) -> Halt
    ensures { result ≡ halts.Refused (BadCode []) }
{
    Halt::Refused(Refusal::BadCode(Bytes::new(alloc)))
}

// Whether an entry of an exception table fits code of `len` bytes.
fn handler_fits(pool: &Pool, len: usize, h: Handler) -> bool
    ensures { result ≡ fits pool.now len h }
{
    h.start < h.end
        && h.end as usize <= len
        && (h.handler as usize) < len
        && (h.catch_type == 0 || pool.class_name(h.catch_type).is_some())
}

#[tactic(auto, unfolding(jmodel::specs::format::ClassReading::handler_at))]
fn handler_at(
    alloc: Global,
    pool: &Pool,
    len: usize,
    bytes: &[u8],
    at: usize,
) -> Result<(Handler, usize), Halt>
    ensures { Gives (λ x. x) result (handler pool.now len bytes.now at) }
{
    let (start, at) = u2_at(bytes, at)?;
    let (end, at) = u2_at(bytes, at)?;
    let (handler, at) = u2_at(bytes, at)?;
    let (catch_type, at) = u2_at(bytes, at)?;
    let h = Handler {
        start,
        end,
        handler,
        catch_type,
    };
    if handler_fits(pool, len, h) {
        Ok((h, at))
    } else {
        Err(bad_code(alloc))
    }
}

fn handler_list(
    alloc: Global,
    pool: &Pool,
    len: usize,
    bytes: &[u8],
    count: u16,
    start: usize,
) -> Result<(Vec<Handler>, usize), Halt>
    ensures { Gives (λ x. (x.0.items, x.1)) result (items_at (handler pool.now len bytes.now) count start) }
{
    let mut items = Vec::new(alloc);
    let mut at = start;
    for _ in 0..count {
        let (item, after) = handler_at(alloc, pool, len, bytes, at)?;
        items.push(item)?;
        at = after;
    }
    Ok((items, at))
}

#[tactic(auto, unfolding(jmodel::specs::format::ClassReading::handlers_at))]
fn handlers_at(
    alloc: Global,
    pool: &Pool,
    len: usize,
    bytes: &[u8],
    at: usize,
) -> Result<(Vec<Handler>, usize), Halt>
    ensures { Gives (λ x. (x.0.items, x.1)) result (handlers pool.now len bytes.now at) }
{
    let (count, at) = u2_at(bytes, at)?;
    handler_list(alloc, pool, len, bytes, count, at)
}

// The code itself, of 1 to 65535 bytes.
#[tactic(auto, unfolding(jmodel::specs::format::ClassReading::body_at))]
fn body_at(alloc: Global, bytes: &[u8], at: usize) -> Result<(&[u8], usize), Halt>
    ensures { Gives (λ x. (x.0.now, x.1)) result (body bytes.now at) }
{
    let (len, at) = u4_at(bytes, at)?;
    if len == 0 || len > 65535 {
        return Err(bad_code(alloc));
    }
    run_at(bytes, at, len as usize)
}

#[tactic(auto, unfolding(jmodel::specs::format::ClassReading::code_at))]
fn code_at(alloc: Global, pool: &Pool, bytes: &[u8]) -> Result<Code, Halt>
    ensures { Gives (λ x. x) result (code pool.now bytes.now) }
{
    let (max_stack, at) = u2_at(bytes, 0)?;
    let (max_locals, at) = u2_at(bytes, at)?;
    let (body, at) = body_at(alloc, bytes, at)?;
    let (handlers, at) = handlers_at(alloc, pool, body.len(), bytes, at)?;
    let (attributes, at) = attributes_at(alloc, pool, bytes, at)?;
    if at != bytes.len() {
        return Err(bad_code(alloc));
    }
    let code = Bytes::from_slice(alloc, body)?;
    Ok(Code {
        max_stack,
        max_locals,
        code,
        handlers,
        attributes,
    })
}

fn read_code(alloc: Global, pool: &Pool, bytes: &[u8]) -> Option<Result<Code, NoMemory>>
    ensures { AnswersCode result (code_of pool.now bytes.now) }
{
    match code_at(alloc, pool, bytes) {
        Ok(code) => Some(Ok(code)),
        Err(Halt::NoMemory) => Some(Err(NoMemory)),
        Err(Halt::Refused(_)) => None,
    }
}

impl Code {
    /// The Code attribute that the bytes are, None where they aren't wholly one in its form.
    pub fn read(alloc: Global, pool: &Pool, bytes: &[u8]) -> Option<Result<Code, NoMemory>>
        // What is read is a Code in its form, and the bytes are its spelling.
        ensures found { AnswersCodeAs result (λ k. SpellsCode pool.now bytes.now k) }
        // Each Code that the bytes spell is read, unless memory runs out. So there is no answer where they spell none.
        ensures only { (k : Form) → SpellsCode pool.now bytes.now k → AnswersCode result (Some k) }
        ensures none { IsNone result → (k : Form) → ¬ SpellsCode pool.now bytes.now k }
        ensures exact { AnswersCode result (code_of pool.now bytes.now) }
    {
        read_code(alloc, pool, bytes)
    }
}
