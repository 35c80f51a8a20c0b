//! Whether two programs are the same, part by part.
use hierarchy::{Declared, Field, Holds, Method, Program, Row};
use jmodel::{Bytes, MethodName, VType, Value};
use objects::op::{Catch, Catches, ContextCall, Op};

/// What tells an instruction from others, but for the cases of a switch: a number of its own, two numbers that it has, and a name.
type Label<'a> = (u8, u64, i64, &'a [u8]);

/// Whether two names are the same.
fn same_name(a: &Bytes, b: &Bytes) -> bool {
    a.as_slice() == b.as_slice()
}

fn same_names(a: &[Bytes], b: &[Bytes]) -> bool {
    a.len() == b.len() && a.iter().zip(b).all(|(x, y)| same_name(x, y))
}

fn same_declared(a: &Declared, b: &Declared) -> bool {
    a.word as u8 == b.word as u8 && same_name(&a.class, &b.class)
}

fn same_holds(a: &Holds, b: &Holds) -> bool {
    match (a, b) {
        (Holds::Words(a), Holds::Words(b)) => {
            a.len() == b.len() && a.iter().zip(b).all(|(x, y)| same_declared(x, y))
        }
        (
            Holds::Elements { declared, name },
            Holds::Elements {
                declared: other,
                name: named,
            },
        ) => same_declared(declared, other) && same_name(name, named),
        _ => false,
    }
}

/// Whether two types of objects are the same.
fn same_row(a: &Row, b: &Row) -> bool {
    same_name(a.name(), b.name())
        && same_name(a.read(), b.read())
        && same_holds(a.holds(), b.holds())
        && same_names(a.lineage(), b.lineage())
        && same_names(a.instance_of(), b.instance_of())
}

fn same_field(a: &Field, b: &Field) -> bool {
    same_name(&a.class, &b.class)
        && same_name(&a.name, &b.name)
        && same_name(&a.descriptor, &b.descriptor)
        && (a.base, a.index) == (b.base, b.index)
        && same_declared(&a.declared, &b.declared)
}

/// The label of a type of one place.
fn type_label(item: &VType) -> (u8, u16, &[u8]) {
    match item {
        VType::Int => (0, 0, b""),
        VType::Long => (1, 0, b""),
        VType::Second => (2, 0, b""),
        VType::Null => (3, 0, b""),
        VType::Ref(name) => (4, 0, name.as_slice()),
        VType::Uninit(pc) => (5, *pc, b""),
        VType::UninitThis => (6, 0, b""),
        VType::Top => (7, 0, b""),
    }
}

fn same_types(a: &[VType], b: &[VType]) -> bool {
    a.len() == b.len() && a.iter().zip(b).all(|(x, y)| type_label(x) == type_label(y))
}

/// The label of a call of the lane's context.
fn context_label(call: ContextCall) -> Label<'static> {
    match call {
        ContextCall::Init => (60, 0, 0, b""),
        ContextCall::BeforeRead => (61, 0, 0, b""),
        ContextCall::OnRead(word) => (62, word as u64, 0, b""),
        ContextCall::OnWrite(word) => (63, word as u64, 0, b""),
        ContextCall::BeforeReadElement => (64, 0, 0, b""),
        ContextCall::OnReadElement(word) => (65, word as u64, 0, b""),
        ContextCall::OnWriteElement(word) => (66, word as u64, 0, b""),
        ContextCall::Commit => (67, 0, 0, b""),
        ContextCall::Rollback => (68, 0, 0, b""),
    }
}

/// The label of an instruction over numbers and places.
fn plain_label(op: &Op) -> Label<'_> {
    match op {
        Op::Constant(Value::Int(value)) => (0, 0, i64::from(*value), b""),
        Op::Constant(Value::Long(value)) => (1, 0, *value, b""),
        Op::Constant(Value::Ref(value)) => (2, *value, 0, b""),
        Op::Text(number) => (3, *number as u64, 0, b""),
        Op::Load(sort, local) => (4, *local as u64, *sort as i64, b""),
        Op::Store(sort, local) => (5, *local as u64, *sort as i64, b""),
        Op::Stack(how) => (6, *how as u64, 0, b""),
        Op::Binary(width, how) => (7, *width as u64, *how as i64, b""),
        Op::Shift(width, how) => (8, *width as u64, *how as i64, b""),
        Op::Divide(width, how) => (9, *width as u64, *how as i64, b""),
        Op::Unary(width, how) => (10, *width as u64, *how as i64, b""),
        Op::Convert(how) => (11, *how as u64, 0, b""),
        Op::CompareLongs => (12, 0, 0, b""),
        Op::Increment(local, by) => (13, *local as u64, i64::from(*by), b""),
        Op::Branch(test, to) => (14, *to as u64, *test as i64, b""),
        Op::BranchInts(test, to) => (15, *to as u64, *test as i64, b""),
        Op::BranchNull(is, to) => (16, *to as u64, i64::from(*is), b""),
        Op::BranchReferences(are, to) => (17, *to as u64, i64::from(*are), b""),
        Op::Goto(to) => (18, *to as u64, 0, b""),
        other => object_label(other),
    }
}

/// The label of an instruction over objects and methods, or of one that ends its method.
fn object_label(op: &Op) -> Label<'_> {
    match op {
        Op::Switch { other, .. } => (20, *other as u64, 0, b""),
        Op::GetStatic(field) => (21, *field as u64, 0, b""),
        Op::PutStatic(field) => (22, *field as u64, 0, b""),
        Op::GetField { field, class } => (23, *field as u64, 0, class.as_slice()),
        Op::PutField { field, class } => (24, *field as u64, 0, class.as_slice()),
        Op::InvokeStatic(method) => (25, *method as u64, 0, b""),
        Op::InvokeSpecial(method) => (26, *method as u64, 0, b""),
        Op::InvokeVirtual { method, class } => (27, *method as u64, 0, class.as_slice()),
        Op::InvokeInterface { method, interface } => (28, *method as u64, 0, interface.as_slice()),
        Op::InitLibrary { class, places } => (29, *places as u64, 0, class.as_slice()),
        Op::New(of) => (30, *of as u64, 0, b""),
        Op::NewArray(of) => (31, *of as u64, 0, b""),
        Op::ArrayLength => (32, 0, 0, b""),
        Op::LoadElement(word) => (33, *word as u64, 0, b""),
        Op::StoreElement(word) => (34, *word as u64, 0, b""),
        Op::CheckCast(class) => (35, 0, 0, class.as_slice()),
        Op::InstanceOf(class) => (36, 0, 0, class.as_slice()),
        Op::Return => (37, 0, 0, b""),
        Op::ReturnValue(sort) => (38, *sort as u64, 0, b""),
        Op::Throw => (39, 0, 0, b""),
        Op::GetContext => (40, 0, 0, b""),
        Op::Context(call) => context_label(*call),
        _ => (41, 0, 0, b""),
    }
}

/// The cases of a switch, none of another instruction.
fn cases_of(op: &Op) -> &[(i32, usize)] {
    match op {
        Op::Switch { cases, .. } => cases.as_slice(),
        _ => &[],
    }
}

fn same_op(a: &Op, b: &Op) -> bool {
    let (a_cases, b_cases) = (cases_of(a), cases_of(b));
    plain_label(a) == plain_label(b)
        && a_cases.len() == b_cases.len()
        && a_cases
            .iter()
            .zip(b_cases)
            .all(|(x, y)| x.0 == y.0 && x.1 == y.1)
}

/// The label of what an exception entry takes.
fn catches_label(catches: &Catches) -> (u8, &[u8]) {
    match catches {
        Catches::Conflict => (0, b""),
        Catches::Any => (1, b""),
        Catches::Of(class) => (2, class.as_slice()),
    }
}

fn same_catch(a: &Catch, b: &Catch) -> bool {
    (a.from, a.to, a.at) == (b.from, b.to, b.at)
        && catches_label(&a.catches) == catches_label(&b.catches)
}

fn same_method_name(a: &MethodName, b: &MethodName) -> bool {
    same_name(&a.class, &b.class)
        && same_name(&a.name, &b.name)
        && same_name(&a.descriptor, &b.descriptor)
}

/// Whether two methods are entered alike.
fn same_shape(a: &Method, b: &Method) -> bool {
    let (a_entry, b_entry) = (a.entry(), b.entry());
    a.dispatch() as u8 == b.dispatch() as u8
        && same_types(a.parameters(), b.parameters())
        && a.result().map(|item| type_label(item)) == b.result().map(|item| type_label(item))
        && (a_entry.places, a_entry.locals) == (b_entry.places, b_entry.locals)
        && (a.max_stack(), a.retries()) == (b.max_stack(), b.retries())
        && a.is_counted() == b.is_counted()
}

/// Whether two methods have the same code.
fn same_code(a: &Method, b: &Method) -> bool {
    a.ops().len() == b.ops().len()
        && a.catches().len() == b.catches().len()
        && a.ops().iter().zip(b.ops()).all(|(x, y)| same_op(x, y))
        && a.catches()
            .iter()
            .zip(b.catches())
            .all(|(x, y)| same_catch(x, y))
}

fn same_method(a: &Method, b: &Method) -> bool {
    same_method_name(a.name(), b.name()) && same_shape(a, b) && same_code(a, b)
}

/// Whether two programs have the same types of objects, texts, fields and methods, in one order.
pub fn same_program(a: &Program, b: &Program) -> bool {
    a.types().len() == b.types().len()
        && a.fields().len() == b.fields().len()
        && a.methods().len() == b.methods().len()
        && a.texts() == b.texts()
        && a.types().iter().zip(b.types()).all(|(x, y)| same_row(x, y))
        && a.fields()
            .iter()
            .zip(b.fields())
            .all(|(x, y)| same_field(x, y))
        && a.methods()
            .iter()
            .zip(b.methods())
            .all(|(x, y)| same_method(x, y))
}
