//! Adding to a constant pool (JVM Specification, Java SE 7, section 4.4). The index of the first entry that means the
//! wanted is answered, else that of a new entry at the end. Refused as PoolFull, with no class's name, where the pool's
//! count field would pass 65,535 or a new text has over 65,535 bytes; after that and for want of memory nothing is added.
ghost use Rattle.std.specs.Prelude.{◌≡◌, IfOk, Some, is_ok, if◌then◌else◌, take};
ghost use Rattle.jmodel.specs.format.PoolAdding.{Adds, Puts, IsLonger, add_text as text_of, add_integer as integer_of, add_long as long_of, new_class as new_class_of, add_class as class_of, new_pair as new_pair_of, add_pair as pair_of, new_member as new_member_of, add_member as member_of, add_field as field_of, add_method as method_of, add_interface_method as interface_method_of};
ghost use Rattle.const_pool.specs.Kinds.{make_of, parts_of};

use crate::meanings::{
    Kind, first_class, first_integer, first_long, first_member, first_pair, first_text,
};
use crate::pool::{Pool, full};
use jmodel::{Bytes, Constant, Halt};

#[tactic(auto, unfolding(jmodel::specs::format::PoolAdding::add_text))]
fn put_text(pool: &mut Pool, text: &[u8]) -> Result<u16, Halt>
    ensures puts { Puts result pool.new (text_of pool.old text.now) }
    ensures grows { IsLonger pool.old pool.new }
{
    let len = pool.len();
    if let Some(i) = first_text(pool, text) {
        prove!(i < len);
        return Ok(i as u16 + 1);
    }
    if text.len() > 65535 {
        return Err(full(pool.allocator()));
    }
    let bytes = Bytes::from_slice(pool.allocator(), text)?;
    pool.put(Constant::Utf8(bytes))
}

#[tactic(auto, unfolding(jmodel::specs::format::PoolAdding::new_class))]
fn put_new_class(pool: &mut Pool, name: &[u8]) -> Result<u16, Halt>
    ensures puts { Puts result pool.new (new_class_of pool.old name.now) }
    ensures grows { IsLonger pool.old pool.new }
{
    let i = put_text(pool, name)?;
    pool.put(Constant::Class(i))
}

#[tactic(auto, unfolding(jmodel::specs::format::PoolAdding::add_class))]
fn put_class(pool: &mut Pool, name: &[u8]) -> Result<u16, Halt>
    ensures puts { Puts result pool.new (class_of pool.old name.now) }
    ensures grows { IsLonger pool.old pool.new }
{
    let len = pool.len();
    if let Some(i) = first_class(pool, name) {
        prove!(i < len);
        return Ok(i as u16 + 1);
    }
    put_new_class(pool, name)
}

#[tactic(auto, unfolding(jmodel::specs::format::PoolAdding::new_pair))]
fn put_new_pair(pool: &mut Pool, name: &[u8], descriptor: &[u8]) -> Result<u16, Halt>
    ensures puts { Puts result pool.new (new_pair_of pool.old name.now descriptor.now) }
    ensures grows { IsLonger pool.old pool.new }
{
    let name = put_text(pool, name)?;
    let descriptor = put_text(pool, descriptor)?;
    pool.put(Constant::NameAndType { name, descriptor })
}

#[tactic(auto, unfolding(jmodel::specs::format::PoolAdding::add_pair))]
fn put_pair(pool: &mut Pool, name: &[u8], descriptor: &[u8]) -> Result<u16, Halt>
    ensures puts { Puts result pool.new (pair_of pool.old name.now descriptor.now) }
    ensures grows { IsLonger pool.old pool.new }
{
    let len = pool.len();
    if let Some(i) = first_pair(pool, name, descriptor) {
        prove!(i < len);
        return Ok(i as u16 + 1);
    }
    put_new_pair(pool, name, descriptor)
}

fn reference(kind: Kind, class: u16, pair: u16) -> Constant
    ensures { result ≡ make_of kind class pair }
{
    match kind {
        Kind::Field => Constant::Field { class, pair },
        Kind::Method => Constant::Method { class, pair },
        Kind::InterfaceMethod => Constant::InterfaceMethod { class, pair },
    }
}

#[tactic(auto, unfolding(jmodel::specs::format::PoolAdding::new_member))]
fn put_new_member(
    kind: Kind,
    pool: &mut Pool,
    class: &[u8],
    name: &[u8],
    descriptor: &[u8],
) -> Result<u16, Halt>
    ensures puts { Puts result pool.new (new_member_of (make_of kind) pool.old class.now name.now descriptor.now) }
    ensures grows { IsLonger pool.old pool.new }
{
    let class = put_class(pool, class)?;
    let pair = put_pair(pool, name, descriptor)?;
    pool.put(reference(kind, class, pair))
}

fn put_member(
    kind: Kind,
    pool: &mut Pool,
    class: &[u8],
    name: &[u8],
    descriptor: &[u8],
) -> Result<u16, Halt>
    ensures puts { Puts result pool.new (member_of (parts_of kind) (make_of kind) pool.old class.now name.now descriptor.now) }
    ensures grows { IsLonger pool.old pool.new }
{
    let len = pool.len();
    if let Some(i) = first_member(kind, pool, class, name, descriptor) {
        prove!(i < len);
        return Ok(i as u16 + 1);
    }
    put_new_member(kind, pool, class, name, descriptor)
}

#[tactic(auto, unfolding(jmodel::specs::format::PoolAdding::add_integer))]
fn put_integer(pool: &mut Pool, n: i32) -> Result<u16, Halt>
    ensures puts { Puts result pool.new (integer_of pool.old n) }
    ensures grows { IsLonger pool.old pool.new }
{
    let len = pool.len();
    if let Some(i) = first_integer(pool, n) {
        prove!(i < len);
        return Ok(i as u16 + 1);
    }
    pool.put(Constant::Integer(n))
}

#[tactic(auto, unfolding(jmodel::specs::format::PoolAdding::add_long))]
fn put_long(pool: &mut Pool, n: i64) -> Result<u16, Halt>
    ensures puts { Puts result pool.new (long_of pool.old n) }
    ensures grows { IsLonger pool.old pool.new }
{
    let len = pool.len();
    if let Some(i) = first_long(pool, n) {
        prove!(i < len);
        return Ok(i as u16 + 1);
    }
    pool.put_wide(Constant::Long(n))
}

// Where an answer is an error, takes out what was put behind the first `len` entries.
fn settle(pool: &mut Pool, len: usize, outcome: Result<u16, Halt>) -> Result<u16, Halt>
    ensures outcome { result ≡ outcome }
    ensures pool { pool.new ≡ (if is_ok outcome then pool.old else take len pool.old) }
{
    if outcome.is_err() {
        pool.truncate(len);
    }
    outcome
}

fn add_member(
    kind: Kind,
    pool: &mut Pool,
    class: &[u8],
    name: &[u8],
    descriptor: &[u8],
) -> Result<u16, Halt>
    ensures adds { Adds result pool.old pool.new (member_of (parts_of kind) (make_of kind) pool.old class.now name.now descriptor.now) }
{
    let len = pool.len();
    let outcome = put_member(kind, pool, class, name, descriptor);
    settle(pool, len, outcome)
}

impl Pool {
    /// The index of the text.
    pub fn add_utf8(&mut self, b: &[u8]) -> Result<u16, Halt>
        ensures adds { Adds result self.old self.new (text_of self.old b.now) }
    {
        self.extend_index()?;
        let len = self.len();
        let outcome = put_text(self, b);
        settle(self, len, outcome)
    }

    /// The index of the class of this name.
    pub fn add_class(&mut self, name: &[u8]) -> Result<u16, Halt>
        ensures adds { Adds result self.old self.new (class_of self.old name.now) }
    {
        self.extend_index()?;
        let len = self.len();
        let outcome = put_class(self, name);
        settle(self, len, outcome)
    }

    /// The index of the number.
    pub fn add_integer(&mut self, n: i32) -> Result<u16, Halt>
        ensures adds { Adds result self.old self.new (integer_of self.old n) }
    {
        self.extend_index()?;
        let len = self.len();
        let outcome = put_integer(self, n);
        settle(self, len, outcome)
    }

    /// The index of the number, which takes two.
    pub fn add_long(&mut self, n: i64) -> Result<u16, Halt>
        ensures adds { Adds result self.old self.new (long_of self.old n) }
    {
        self.extend_index()?;
        let len = self.len();
        let outcome = put_long(self, n);
        settle(self, len, outcome)
    }

    /// The index of a reference to the field.
    pub fn add_field(&mut self, class: &[u8], name: &[u8], descriptor: &[u8]) -> Result<u16, Halt>
        ensures adds { Adds result self.old self.new (field_of self.old class.now name.now descriptor.now) }
    {
        self.extend_index()?;
        add_member(Kind::Field, self, class, name, descriptor)
    }

    /// The index of a reference to the method of a class.
    pub fn add_method(&mut self, class: &[u8], name: &[u8], descriptor: &[u8]) -> Result<u16, Halt>
        ensures adds { Adds result self.old self.new (method_of self.old class.now name.now descriptor.now) }
    {
        self.extend_index()?;
        add_member(Kind::Method, self, class, name, descriptor)
    }

    /// The index of a reference to the method of an interface.
    pub fn add_interface_method(
        &mut self,
        class: &[u8],
        name: &[u8],
        descriptor: &[u8],
    ) -> Result<u16, Halt>
        ensures adds { Adds result self.old self.new (interface_method_of self.old class.now name.now descriptor.now) }
    {
        self.extend_index()?;
        add_member(Kind::InterfaceMethod, self, class, name, descriptor)
    }
}
