//! Instructions by kind, with every name resolved (JVM Specification, Java SE 7, chapter 6). Places in code are counted
//! in instructions, from 0.
use crate::switch::Cases;
use jmodel::{Bytes, Value};

/// One place of a frame, among its locals or on its operand stack (JVM Specification, Java SE 7, section 2.6). A long
/// takes two.
#[derive(Clone, Copy)]
pub enum Slot {
    Int(i32),
    /// The first place of a long.
    Long(i64),
    /// The second place of a long.
    Second,
    /// Reference 0 is null.
    Ref(u64),
    /// The context of the lane's transactions.
    Context,
    /// What a plain load gave in transactional code: of no use but to be handed to the context.
    Loaded,
    /// A local in which nothing was stored.
    Empty,
}

/// What a load, a store or a return says of the value that it moves.
#[derive(Clone, Copy)]
pub enum Sort {
    Int,
    Long,
    Reference,
}

/// The type of the word of a field or an element, and what it keeps of an int that is stored there.
#[derive(Clone, Copy)]
pub enum WordType {
    /// The low bit, without a sign.
    Boolean,
    /// The low eight bits, with their sign.
    Byte,
    /// The low sixteen bits, without a sign.
    Char,
    /// The low sixteen bits, with their sign.
    Short,
    Int,
    Long,
    Reference,
}

/// How calls find a method (JVM Specification, Java SE 7, sections 5.4.3 and 6.5).
#[derive(Clone, Copy)]
pub enum Dispatch {
    /// By its name: a static method.
    Static,
    /// By its name, over an object: a private method or a constructor.
    Exact,
    /// By the class of the object.
    Virtual,
    /// By the class of the object, which has another that it selects, or none.
    Abstract,
}

/// A word's place: an object, and the distance from its header, from 1.
#[derive(Clone, Copy)]
pub struct Place {
    pub object: u64,
    pub index: u64,
}

/// Whether an operator is of ints or of longs.
#[derive(Clone, Copy)]
pub enum Width {
    Int,
    Long,
}

/// Two numbers to one, the second topmost.
#[derive(Clone, Copy)]
pub enum Binary {
    Add,
    Subtract,
    Multiply,
    And,
    Or,
    Xor,
    Minimum,
    Maximum,
}

/// A number shifted by an int, which is topmost: of the int the low five bits count, or six for a long.
#[derive(Clone, Copy)]
pub enum Shift {
    Left,
    /// With copies of the sign.
    Right,
    /// With zeros.
    UnsignedRight,
}

/// Two numbers to one, the second topmost, which isn't 0.
#[derive(Clone, Copy)]
pub enum Division {
    /// Cut to a whole number; of the least number by -1 that number itself.
    Quotient,
    /// What the quotient leaves, with the sign of the first.
    Remainder,
}

/// A number to another of its width.
#[derive(Clone, Copy)]
pub enum Unary {
    Negate,
    /// Of the least number that number itself.
    Absolute,
}

/// A number to one of another type.
#[derive(Clone, Copy)]
pub enum Conversion {
    /// The low eight bits, with their sign.
    IntToByte,
    /// The low sixteen bits, without a sign.
    IntToChar,
    /// The low sixteen bits, with their sign.
    IntToShort,
    IntToLong,
    /// The low 32 bits.
    LongToInt,
}

/// An exception that an instruction throws.
#[derive(Clone, Copy)]
pub enum Trap {
    /// A division by 0.
    Arithmetic,
    /// A field, an element or a method of null.
    NullPointer,
    /// An index outside an array.
    ArrayIndex,
    /// An element that is no instance of the array's element type.
    ArrayStore,
    /// An array of a negative length.
    NegativeArraySize,
    /// An object that isn't an instance of a class.
    ClassCast,
    /// A call that the object's class has no method for.
    AbstractMethod,
    /// A call by an interface that the object's class hasn't.
    IncompatibleClassChange,
}

/// How a branch compares two ints, of which the second is topmost.
#[derive(Clone, Copy)]
pub enum Test {
    Equal,
    NotEqual,
    Less,
    GreaterOrEqual,
    Greater,
    LessOrEqual,
}

/// What rearranges the operand stack, by the JVM's names. A long counts as two values, its second place topmost.
#[derive(Clone, Copy)]
pub enum StackOp {
    Nop,
    Pop,
    Pop2,
    Dup,
    DupX1,
    DupX2,
    Dup2,
    Dup2X1,
    Dup2X2,
    Swap,
}

/// A call of the transaction's context (Korland, Shavit, Felber, MULTIPROG 2010, in this project's form).
#[derive(Clone, Copy)]
pub enum ContextCall {
    /// Begins an attempt.
    Init,
    /// Before a plain load of a field.
    BeforeRead,
    /// After it.
    OnRead(WordType),
    /// In place of a store to a field.
    OnWrite(WordType),
    /// Before a plain load of an element.
    BeforeReadElement,
    /// After it.
    OnReadElement(WordType),
    /// In place of a store to an element.
    OnWriteElement(WordType),
    Commit,
    Rollback,
}

/// An instruction. Fields, methods and texts go by their numbers, types of objects by theirs, which begin at 1.
#[derive(Drop)]
pub enum Op {
    Constant(Value),
    /// A string constant.
    Text(usize),
    Load(Sort, usize),
    Store(Sort, usize),
    Stack(StackOp),
    Binary(Width, Binary),
    Shift(Width, Shift),
    /// Throws an exception where the second number is 0.
    Divide(Width, Division),
    Unary(Width, Unary),
    Convert(Conversion),
    /// Two longs to -1, 0 or 1.
    CompareLongs,
    /// Adds to a local, which holds an int.
    Increment(usize, i32),
    /// To the target, where the test holds of an int and 0.
    Branch(Test, usize),
    /// To the target, where the test holds of two ints.
    BranchInts(Test, usize),
    /// To the target, where a reference is null, or isn't.
    BranchNull(bool, usize),
    /// To the target, where two references are the same, or aren't.
    BranchReferences(bool, usize),
    Goto(usize),
    /// To the target of the case whose key an int is, else to the other one: tableswitch and lookupswitch.
    Switch { other: usize, cases: Cases },
    GetStatic(usize),
    PutStatic(usize),
    /// A field of an object of the named class, as typing reads its name.
    GetField { field: usize, class: Bytes },
    PutField { field: usize, class: Bytes },
    InvokeStatic(usize),
    /// The method itself, over an object.
    InvokeSpecial(usize),
    /// The method that the object's class selects for this one, over an object of the named class.
    InvokeVirtual { method: usize, class: Bytes },
    /// The same, where the object is an instance of an interface.
    InvokeInterface { method: usize, interface: Bytes },
    /// A constructor of a library class, which does nothing: by the class, and how many places its parameters have.
    InitLibrary { class: Bytes, places: usize },
    /// A new object of a type.
    New(usize),
    /// A new array of a type, of so many elements.
    NewArray(usize),
    ArrayLength,
    /// An element of an array. A byte stands for a boolean too.
    LoadElement(WordType),
    StoreElement(WordType),
    /// Throws an exception where an object isn't an instance of a class.
    CheckCast(Bytes),
    /// Whether an object is an instance of a class.
    InstanceOf(Bytes),
    Return,
    ReturnValue(Sort),
    Throw,
    /// The lane's context.
    GetContext,
    Context(ContextCall),
}

/// Which exceptions an entry of an exception table takes.
#[derive(Drop)]
pub enum Catches {
    /// The conflict of a transaction.
    Conflict,
    Any,
    /// The instances of a class.
    Of(Bytes),
}

/// An exception entry: instructions from one up to another, and where an exception in them goes.
#[derive(Drop)]
pub struct Catch {
    pub from: usize,
    pub to: usize,
    pub at: usize,
    pub catches: Catches,
}

/// What an instruction asks of memory or of the transaction.
#[derive(Clone, Copy)]
pub enum Request {
    /// A plain load.
    Get(Place),
    /// A plain store of a value of the word's type.
    Put(Place, Value),
    /// Begins an attempt, of which there may be this many.
    Begin(i32),
    /// Before a read.
    Look(Place),
    Read(Place, WordType),
    Write(Place, u64),
    Commit,
    Rollback,
}

/// What is done with an element, once its index is known to be one of its array.
#[derive(Clone, Copy)]
pub enum Element {
    Load,
    Store(Value),
    Look,
    Write(Value),
}

/// What an instruction does with an object, once its header is known.
#[derive(Drop)]
pub enum Use {
    /// Calls what its class selects for a method.
    Selects(usize),
    /// The same, where it is an instance of an interface.
    Implements {
        method: usize,
        interface: Bytes,
    },
    Casts(Bytes),
    Tests(Bytes),
    Measures,
    /// Goes to the element at an index.
    Indexes(i32, Element),
    /// Goes to a place of an array, by the number of its type, if it may be its element.
    Fits {
        array: usize,
        place: Place,
        element: Element,
    },
}

/// What becomes of a new object.
#[derive(Clone, Copy)]
pub enum Made {
    Pushed,
    Raised,
}

/// What an instruction does, beside what it does to its frame.
#[derive(Drop)]
pub enum Doing {
    Next,
    Jump(usize),
    Invoke(usize),
    Give(Option<Value>),
    /// Throws an exception from where no entry asks for its class.
    Throw(u64),
    /// Throws an exception, whose type is to be known.
    Raise(u64),
    /// Throws a new exception.
    Trap(Trap),
    /// Makes an object of a type: an array of a length, where it is one of arrays.
    Make(usize, u64),
    /// Goes on by the header of an object.
    Head(u64, Use),
    Ask(Request),
}

/// What a step of the machine leaves to be done.
#[derive(Drop)]
pub enum Asking {
    /// Nothing.
    Go,
    /// A turn is to be counted.
    Turn,
    /// A method was entered: a turn, and whether there are too many frames now.
    Enter(bool),
    /// The last frame gave this.
    Return(Option<Value>),
    /// No frame took this exception.
    Throw(u64),
    /// This exception is to be thrown from where the instruction stands, by its type.
    Raise(u64),
    /// Words are wanted for an object of a type, of a length where it is one of arrays.
    Make { of: usize, length: u64, made: Made },
    /// The header of an object is wanted, by which the instruction goes on.
    Head(u64, Use),
    /// The instruction has taken its operands and waits for this.
    Ask(Request),
}

/// Where a call of a wrapper stands.
#[derive(Clone, Copy)]
pub enum Phase {
    /// Outside an attempt.
    Ready,
    /// In an attempt.
    Open,
    /// In an attempt that met a conflict.
    Doomed,
    /// After the commit.
    Closed,
}
