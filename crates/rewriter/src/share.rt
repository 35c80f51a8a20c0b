//! What of a program is a class's own.
ghost use Rattle.std.specs.Prelude.{◌≡◌, ◌<◌, ◌≤◌, ◌+◌, ◌^◌, Bool, length, map, filter, is_some, IfOk};
ghost use Rattle.jmodel.specs.format.ClassFile.{Member as MemberForm};
ghost use Rattle.objects.specs.semantics.Program.{Method as MethodForm};
ghost use Rattle.std.specs.List.{prefix_len};
ghost use Rattle.objects.specs.linking.Members.{own_name as name_of_class};
ghost use Rattle.rewriter.specs.Part.{Part, Rest as RestForm, HasNext, StandsFirst, is_of_class, is_wrapped as is_wrapped_method, share_of, wrapper_count};

use const_pool::{ClassFile, Member};
use hierarchy::symbols::own_name;
use hierarchy::{Field, Method, Program};
use std::alloc::{AllocError, Global};
use std::marker::Model;

/// A class's share of a program: those of its methods that are the program's, with flags of all its methods, its fields and methods, and
/// how many methods, and how many wrappers, are before them.
#[derive(Drop)]
pub struct Share<'a> {
    members: Vec<&'a Member>,
    flags: &'a [bool],
    fields: &'a [Field],
    methods: &'a [Method],
    first: usize,
    wrapper: usize,
}

impl<'a> Model for Share<'a> {
    ghost use Rattle.std.specs.Prelude.{map};
    ghost use Rattle.rewriter.specs.Part.{Share as Form};

    ghost Value = { Form };

    ghost view = { λ s. record { members = map (λ m. m.now) s.members.items; flags = s.flags.now; fields = s.fields.now; methods = s.methods.now; first = s.first; wrapper = s.wrapper } };
}

impl<'a> Share<'a> {
    /// The class's methods that are the program's.
    pub fn members(&self) -> &[&'a Member]
        ensures { map (λ m. m.now) result.now ≡ self.now.members }
    {
        self.members.as_slice()
    }

    /// For each of the class's methods whether it is the program's.
    pub fn flags(&self) -> &[bool]
        ensures { result.now ≡ self.now.flags }
    {
        self.flags
    }

    /// The class's fields.
    pub fn fields(&self) -> &[Field]
        ensures { result.now ≡ self.now.fields }
    {
        self.fields
    }

    /// The class's methods, as the program has them.
    pub fn methods(&self) -> &[Method]
        ensures { result.now ≡ self.now.methods }
    {
        self.methods
    }

    /// How many of the program's methods are before them.
    pub fn first(&self) -> usize
        ensures { result ≡ self.now.first }
    {
        self.first
    }

    /// How many wrappers are before theirs.
    pub fn wrapper(&self) -> usize
        ensures { result ≡ self.now.wrapper }
    {
        self.wrapper
    }
}

// Those methods of a class whose flags say so.
fn chosen<'a>(
    alloc: Global,
    methods: &'a [Member],
    flags: &[bool],
) -> Result<Vec<&'a Member>, AllocError>
    requires { length flags.now ≡ length methods.now }
    ensures { IfOk result (λ v. (p : MemberForm → Bool) → flags.now ≡ map p methods.now → map (λ m. m.now) v.items ≡ filter p methods.now) }
{
    let mut chosen = Vec::new(alloc);
    for (i, method) in methods.iter().enumerate() {
        if flags[i] {
            chosen.push(method)?;
        }
    }
    Ok(chosen)
}

// How many of the fields are a class's, up to the first of another.
fn count_own(fields: &[Field], class: &[u8]) -> usize
    ensures exact { result ≡ prefix_len (is_of_class class.now) fields.now }
    ensures inside { result ≤ length fields.now }
{
    fields
        .iter()
        .take_while(|f| f.class.as_slice() == class)
        .count()
}

// Whether a method gets a wrapper.
fn is_wrapped(method: &Method) -> bool
    ensures { result ≡ is_wrapped_method method.now }
{
    method.retries().is_some()
}

// How many of the methods get wrappers.
fn count_wrappers(methods: &[Method]) -> usize
    ensures { result ≡ wrapper_count methods.now }
{
    let mut count = 0;
    for method in methods {
        count += usize::from(is_wrapped(method));
    }
    count
}

/// What of a program is left for further classes: flags of their methods, their fields and methods, and how many methods, and how many
/// wrappers, are before them.
#[derive(Drop)]
pub struct Rest<'a> {
    flags: &'a [bool],
    fields: &'a [Field],
    methods: &'a [Method],
    first: usize,
    wrapper: usize,
}

impl<'a> Model for Rest<'a> {
    ghost Value = { RestForm };

    ghost view = { λ r. record { flags = r.flags.now; fields = r.fields.now; methods = r.methods.now; first = r.first; wrapper = r.wrapper } };
}

impl<'a> Rest<'a> {
    /// All of a program, with flags of the methods of all classes.
    pub fn all(flags: &'a [bool], program: &'a Program) -> Self
        ensures { result ≡ record { flags = flags.now; fields = program.now.fields; methods = program.now.methods; first = 0; wrapper = 0 } }
    {
        Rest {
            flags,
            fields: program.fields(),
            methods: program.methods(),
            first: 0,
            wrapper: 0,
        }
    }

    /// The share of the next class, and what is left behind it.
    pub fn split(
        self,
        alloc: Global,
        class: &'a ClassFile,
    ) -> Result<(Share<'a>, Rest<'a>), AllocError>
        requires next { HasNext class.now self }
        requires room { self.first + length self.methods < 2 ^ 64 }
        requires wrapper { self.wrapper ≤ self.first }
        ensures { IfOk result (λ s. (part : Part) → (behind : RestForm) → StandsFirst class.now part self.entry behind → (s.0 ≡ share_of class.now part) × (s.1 ≡ behind)) }
    {
        let (flags, more_flags) = self.flags.split_at(class.methods.len());
        let (fields, more_fields) = self
            .fields
            .split_at(count_own(self.fields, own_name(class)));
        let members = chosen(alloc, class.methods.as_slice(), flags)?;
        let (methods, more_methods) = self.methods.split_at(members.len());
        let share = Share {
            members,
            flags,
            fields,
            methods,
            first: self.first,
            wrapper: self.wrapper,
        };
        let behind = Rest {
            flags: more_flags,
            fields: more_fields,
            methods: more_methods,
            first: self.first + methods.len(),
            wrapper: self.wrapper + count_wrappers(methods),
        };
        Ok((share, behind))
    }
}
