//! A program: its types of objects, its fields, and its methods with their instructions.
ghost use Rattle.std.specs.Prelude.{◌≡◌, slice_get, length, ◌<◌, ◌+◌, ◌^◌, IfSome, Option, option_copied, true, nat_le, nat_lt, ◌&&◌, Some, None, IfOk};
ghost use Rattle.objects.specs.semantics.Program.{Field as JField, Method as JMethod, Program as JProgram, op_at, is_counted, method_at, field_at, row_at, name_at, is_instance, has_code, selected, is_selectable, first_in, lineage_in, runnable};
ghost use Rattle.objects.specs.semantics.Step.{catch_at, find_catch, takes};
ghost use Rattle.objects.specs.linking.Code.{names_initialiser};

use crate::row::{Declared, Row};
use crate::selection::Selection;
use crate::text::same;
use jmodel::bytes::Bytes;
use jmodel::name::MethodName;
use jmodel::{NoMemory, VType};
use objects::op::{Catch, Catches, Dispatch, Op};
use std::alloc::Global;
use std::marker::Model;

/// A field: its names and descriptor, the reference of its class's static fields where it is one of them, its place among the values of
/// its object, and its type.
pub struct Field {
    pub class: Bytes,
    pub name: Bytes,
    pub descriptor: Bytes,
    pub base: Option<u64>,
    pub index: u64,
    pub declared: Declared,
}

impl Drop for Field {
    fn drop(self) {
        let Self {
            class: _,
            name: _,
            descriptor: _,
            base: _,
            index: _,
            declared: _,
        } = self;
    }
}

impl Model for Field {
    ghost Value = { JField };

    ghost view = { λ f. record { class = f.class; name = f.name; descriptor = f.descriptor; base = f.base; index = f.index; declared = f.declared } };
}

/// How calls find a method, the types of the places of its parameters, the object first, and of what it gives.
pub struct Shape {
    pub dispatch: Dispatch,
    pub parameters: Vec<VType>,
    pub result: Option<VType>,
}

impl Drop for Shape {
    fn drop(self) {
        let Self {
            dispatch: _,
            parameters: _,
            result: _,
        } = self;
    }
}

/// A method's code: how many places all its locals have, and its operand stack at most; its instructions and exception entries. An abstract
/// method has none, and locals for its parameters alone.
pub struct Body {
    pub locals: usize,
    pub max_stack: usize,
    pub ops: Vec<Op>,
    pub catches: Vec<Catch>,
}

impl Drop for Body {
    fn drop(self) {
        let Self {
            locals: _,
            max_stack: _,
            ops: _,
            catches: _,
        } = self;
    }
}

/// What entering a method needs: how many places its parameters and all its locals take, and whether it is a turn.
#[derive(Clone, Copy)]
pub struct Entry {
    pub places: usize,
    pub locals: usize,
    pub counted: bool,
}

/// A method.
pub struct Method {
    name: MethodName,
    shape: Shape,
    counted: bool,
    retries: Option<i32>,
    body: Body,
}

impl Drop for Method {
    fn drop(self) {
        let Self {
            name: _,
            shape: _,
            counted: _,
            retries: _,
            body: _,
        } = self;
    }
}

impl Model for Method {
    ghost Value = { JMethod };

    ghost view = { λ m. record { name = m.name; dispatch = m.shape.dispatch; parameters = m.shape.parameters.items; places = length m.shape.parameters.items; locals = m.body.locals; max_stack = m.body.max_stack; result = m.shape.result; counted = m.counted; retries = m.retries; ops = m.body.ops.items; catches = m.body.catches.items } };
}

impl Method {
    /// A method whose entering and frames count where it is `counted`, and which may make `retries` attempts where it is marked or a static
    /// initialiser.
    pub fn new(
        name: MethodName,
        shape: Shape,
        counted: bool,
        retries: Option<i32>,
        body: Body,
    ) -> Self
        ensures { result ≡ record { name = name; dispatch = shape.dispatch; parameters = shape.parameters.items; places = length shape.parameters.items; locals = body.locals; max_stack = body.max_stack; result = shape.result; counted = counted; retries = retries; ops = body.ops.items; catches = body.catches.items } }
    {
        Method {
            name,
            shape,
            counted,
            retries,
            body,
        }
    }

    /// The method's name.
    pub fn name(&self) -> &MethodName
        ensures { result.now ≡ self.now.name }
    {
        &self.name
    }

    /// How calls find it.
    pub fn dispatch(&self) -> Dispatch
        ensures { result ≡ self.now.dispatch }
    {
        self.shape.dispatch
    }

    /// The types of the places of its parameters, the object first.
    pub fn parameters(&self) -> &[VType]
        ensures { result.now ≡ self.now.parameters }
    {
        self.shape.parameters.as_slice()
    }

    /// The type of what it gives, if it gives a value.
    pub fn result(&self) -> Option<&VType>
        ensures { option_copied result ≡ self.now.result }
    {
        self.shape.result.as_ref()
    }

    /// How many places its operand stack takes at most.
    pub fn max_stack(&self) -> usize
        ensures { result ≡ self.now.max_stack }
    {
        self.body.max_stack
    }

    /// How many attempts it may make, where it is marked or a static initialiser.
    pub fn retries(&self) -> Option<i32>
        ensures { result ≡ self.now.retries }
    {
        self.retries
    }

    /// Whether it is a static initialiser, by its name and its descriptor.
    pub fn is_initialiser(&self) -> bool
        ensures { result ≡ names_initialiser self.now.name }
    {
        same(&self.name.name, b"<clinit>") && same(&self.name.descriptor, b"()V")
    }

    /// Whether entering it is a turn, and its frames count.
    pub fn is_counted(&self) -> bool
        ensures { result ≡ self.now.counted }
    {
        self.counted
    }

    /// Whether the class of an object has a part in which method a call of it runs.
    pub(crate) fn is_selectable(&self) -> bool
        ensures { result ≡ is_selectable self.now.dispatch }
    {
        matches!(self.shape.dispatch, Dispatch::Virtual | Dispatch::Abstract)
    }

    /// Whether it has code.
    pub fn has_code(&self) -> bool
        ensures { result ≡ has_code (Some self.now) }
    {
        !self.body.ops.is_empty()
    }

    /// The instructions.
    pub fn ops(&self) -> &[Op]
        ensures { result.now ≡ self.now.ops }
    {
        self.body.ops.as_slice()
    }

    /// The exception entries.
    pub fn catches(&self) -> &[Catch]
        ensures { result.now ≡ self.now.catches }
    {
        self.body.catches.as_slice()
    }

    /// What entering it needs.
    pub fn entry(&self) -> Entry
        ensures places { result.places ≡ self.now.places }
        ensures locals { result.locals ≡ self.now.locals }
        ensures counted { result.counted ≡ self.now.counted }
    {
        Entry {
            places: self.shape.parameters.len(),
            locals: self.body.locals,
            counted: self.counted,
        }
    }

    /// The instruction at a place. Where there is one, the next place has a number too.
    pub fn op(&self, pc: usize) -> Option<&Op>
        ensures at { option_copied result ≡ slice_get self.now.ops pc }
        ensures next { IfSome result (λ _. pc + 1 < 2 ^ 64) }
    {
        self.body.ops.get(pc)
    }

    /// Where the first exception entry goes that covers a place and takes exceptions of a type of a program.
    fn catch(&self, program: &Program, pc: usize, of: usize) -> Option<usize>
        ensures { result ≡ find_catch program.now self.now.catches pc of }
    {
        for entry in &self.body.catches {
            if program.covers(entry, pc, of) {
                return Some(entry.at);
            }
        }
        None
    }
}

/// The types, the references of string constants, and the fields and methods by their numbers. Type t is row t - 1.
pub struct Program {
    types: Vec<Row>,
    texts: Vec<u64>,
    fields: Vec<Field>,
    methods: Vec<Method>,
    selection: Selection,
}

impl Drop for Program {
    fn drop(self) {
        let Self {
            types: _,
            texts: _,
            fields: _,
            methods: _,
            selection: _,
        } = self;
    }
}

impl Model for Program {
    ghost use Rattle.objects.specs.semantics.Program.{Program as JProgram};
    ghost use Rattle.hierarchy.specs.Selects.{Selects};

    ghost Value = { JProgram };

    ghost view = { λ p. record { types = p.types.items; texts = p.texts.items; fields = p.fields.items; methods = p.methods.items } };

    ghost invariant = { λ p. Selects p.selection (record { types = p.types.items; texts = p.texts.items; fields = p.fields.items; methods = p.methods.items }) };
}

impl Program {
    /// A program of these types, texts, fields and methods.
    pub fn new(
        alloc: Global,
        types: Vec<Row>,
        texts: Vec<u64>,
        fields: Vec<Field>,
        methods: Vec<Method>,
    ) -> Result<Self, NoMemory>
        ensures { IfOk result (λ p. p ≡ record { types = types.items; texts = texts.items; fields = fields.items; methods = methods.items }) }
    {
        let selection = Selection::new(alloc, types.as_slice(), methods.as_slice())?;
        Ok(Program {
            types,
            texts,
            fields,
            methods,
            selection,
        })
    }

    /// All types of objects.
    pub fn types(&self) -> &[Row]
        ensures { result.now ≡ self.now.types }
    {
        self.types.as_slice()
    }

    /// The references of all string constants.
    pub fn texts(&self) -> &[u64]
        ensures { result.now ≡ self.now.texts }
    {
        self.texts.as_slice()
    }

    /// All fields.
    pub fn fields(&self) -> &[Field]
        ensures { result.now ≡ self.now.fields }
    {
        self.fields.as_slice()
    }

    /// All methods.
    pub fn methods(&self) -> &[Method]
        ensures { result.now ≡ self.now.methods }
    {
        self.methods.as_slice()
    }

    /// The type of a number, if there is one: numbers begin at 1.
    pub fn row(&self, of: usize) -> Option<&Row>
        ensures { option_copied result ≡ row_at self.now of }
    {
        self.types.get(of.checked_sub(1)?)
    }

    /// The name of the type of a number, if there is one.
    pub fn name_of(&self, of: usize) -> Option<&Bytes>
        ensures { option_copied result ≡ name_at self.now of }
    {
        Some(self.row(of)?.name())
    }

    /// The field of a number, if there is one.
    pub fn field(&self, number: usize) -> Option<&Field>
        ensures { option_copied result ≡ field_at self.now number }
    {
        self.fields.get(number)
    }

    /// The reference of the string constant of a number, if there is one.
    pub fn text(&self, number: usize) -> Option<u64>
        ensures { result ≡ slice_get self.now.texts number }
    {
        self.texts.get(number).copied()
    }

    /// The method of a number, if there is one.
    pub fn method(&self, number: usize) -> Option<&Method>
        ensures { option_copied result ≡ method_at self.now number }
    {
        self.methods.get(number)
    }

    /// The instruction at a place of a method. Where there is one, the next place has a number too.
    pub fn op(&self, method: usize, pc: usize) -> Option<&Op>
        ensures at { option_copied result ≡ op_at self.now method pc }
        ensures next { IfSome result (λ _. pc + 1 < 2 ^ 64) }
    {
        self.methods.get(method)?.op(pc)
    }

    /// The run-time test: whether objects of a type are instances of the class, the interface or the array type of a name.
    pub fn is_instance(&self, of: usize, name: &[u8]) -> bool
        ensures { result ≡ is_instance self.now of name.now }
    {
        match self.row(of) {
            Some(row) => row.is_instance(name),
            None => false,
        }
    }

    /// Whether an entry takes exceptions of a type. The conflict of a transaction is that of type 0.
    fn takes(&self, catches: &Catches, of: usize) -> bool
        ensures { result ≡ takes self.now catches.now of }
    {
        match catches {
            Catches::Conflict => of == 0,
            Catches::Any => true,
            Catches::Of(name) => self.is_instance(of, name.as_slice()),
        }
    }

    /// Whether an entry covers a place and takes exceptions of a type.
    fn covers(&self, entry: &Catch, pc: usize, of: usize) -> bool
        ensures { result ≡ (nat_le entry.now.from pc && nat_lt pc entry.now.to && takes self.now entry.now.catches of) }
    {
        entry.from <= pc && pc < entry.to && self.takes(&entry.catches, of)
    }

    /// Where an exception of a type goes that is thrown at a place of a method, if the method has an entry for it.
    pub fn catch(&self, method: usize, pc: usize, of: usize) -> Option<usize>
        ensures { result ≡ catch_at self.now method pc of }
    {
        self.methods.get(method)?.catch(self, pc, of)
    }

    /// Whether frames of a method count.
    pub fn is_counted(&self, method: usize) -> bool
        ensures { result ≡ is_counted self.now method }
    {
        match self.methods.get(method) {
            Some(m) => m.is_counted(),
            None => false,
        }
    }

    /// Whether a method has code.
    fn has_code(&self, method: usize) -> bool
        ensures { result ≡ has_code (method_at self.now method) }
    {
        match self.methods.get(method) {
            Some(m) => m.has_code(),
            None => false,
        }
    }

    // The first method from the class of a type upward that is declared for calls of one.
    fn first_in(&self, of: usize, method: usize) -> Option<usize>
        ensures { (k : JMethod) → method_at self.now method ≡ Some k → is_selectable k.dispatch ≡ true → result ≡ first_in self.now k (lineage_in (row_at self.now of)) }
    {
        self.selection.first(of.checked_sub(1)?, method)
    }

    // A method that has code.
    fn runnable(&self, found: Option<usize>) -> Option<usize>
        ensures { result ≡ runnable self.now found }
    {
        let method = found?;
        if self.has_code(method) {
            Some(method)
        } else {
            None
        }
    }

    /// The method that a call of one runs over an object of a type: itself, where calls find it by its name; else the first from the object's
    /// class upward. There is none where that one has no code (JVM Specification, Java SE 7, section 6.5, invokevirtual).
    pub fn selected(&self, of: usize, method: usize) -> Option<usize>
        ensures { result ≡ selected self.now of method }
    {
        if self.methods.get(method)?.is_selectable() {
            self.runnable(self.first_in(of, method))
        } else {
            self.runnable(Some(method))
        }
    }
}
