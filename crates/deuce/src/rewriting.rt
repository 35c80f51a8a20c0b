//! A rewriting, from class files to the bytes of the new ones.
ghost use Rattle.std.specs.Prelude.{◌≡◌, ◌≤◌, ◌<◌, ◌∷◌, ◌++◌, [], ℕ, List, length, filter, map, option_map, IfOk, IfErr, IsSome};
ghost use Rattle.std.specs.List.{AllByRecursion, AllZip};
ghost use Rattle.jmodel.specs.format.ClassFile.{ClassFile as Form};
ghost use Rattle.jmodel.specs.format.ClassRules.{IsClassFile, Spells};
ghost use Rattle.objects.specs.linking.Members.{own_name as own_name_of};
ghost use Rattle.objects.specs.linking.Superclasses.{class_named};
ghost use Rattle.objects.specs.history.Journal.{is_marked as is_marked_method};
ghost use Rattle.rewriter.specs.Asked.{AreFiled};
ghost use Rattle.runner.specs.Faults.{EndsPreparing};
ghost use Rattle.deuce.specs.Ending.{AreUnderNames};
ghost use Rattle.deuce.specs.Folder.{IsFileOf};
ghost use Rattle.deuce.specs.Rewritten.{IsNewOf, IsRewriting};

use class_writer::write_class;
use const_pool::ClassFile;
use hierarchy::Method;
use hierarchy::symbols::own_name;
use jmodel::{Bytes, NoMemory};
use rewritten_form::laws::form_law;
use rewritten_program::laws::{heads_law, meaning_law};
use runner::{RunEnd, instrument_files};
use std::alloc::{AllocError, Global};
use std::collections::BTreeMap;

/// The rewriting of class files, written.
#[derive(Drop)]
pub struct WrittenClasses {
    /// The bytes of the new class files, in the order of the old ones.
    pub files: Vec<Bytes>,
    /// Those of the helper of arrays.
    pub helper: Bytes,
    /// How many methods of the classes are taken.
    pub taken: usize,
    /// How many of them are marked.
    pub marked: usize,
}

/// Rewrites the classes of class files, and writes the new ones.
pub fn write_rewriting(alloc: Global, files: &[ClassFile]) -> Result<WrittenClasses, RunEnd>
    requires few { length files.now ≤ 256 }
    requires form { AllByRecursion IsClassFile files.now }
    requires filed { AllByRecursion AreFiled files.now }
    ensures rewriting { IfOk result (λ r. (contents : List (List ℕ)) → AllZip IsFileOf contents files.now → IsRewriting contents r.files.items r.helper r.taken r.marked) }
    ensures cause { IfErr result (EndsPreparing files.now) }
{
    heads_law();
    form_law();
    meaning_law();
    let made = instrument_files(alloc, files)?;
    let classes = made.rewritten.as_slice();
    let written = write_each(alloc, files, classes)?;
    let helper = write_last(alloc, classes)?;
    let methods = made.original.methods();
    Ok(WrittenClasses {
        files: written,
        helper,
        taken: methods.len(),
        marked: count_marked(methods),
    })
}

/// Classes by their names, the first of those of one name.
fn by_name<'a>(
    alloc: Global,
    classes: &'a [ClassFile],
) -> Result<BTreeMap<&'a [u8], &'a ClassFile>, AllocError>
    ensures { IfOk result (λ m. AreUnderNames m.entries classes.now) }
{
    let mut named = BTreeMap::new(alloc);
    for class in classes.iter().rev() {
        named.insert(own_name(class), class)?;
    }
    Ok(named)
}

/// Writes the class of each class file: of these classes the one that has the name of the file's.
fn write_each(
    alloc: Global,
    files: &[ClassFile],
    classes: &[ClassFile],
) -> Result<Vec<Bytes>, NoMemory>
    requires rules { AllByRecursion IsClassFile classes.now }
    requires named { AllByRecursion (λ (f : Form). IsSome (class_named classes.now (own_name_of f))) files.now }
    ensures { IfOk result (λ v. AllZip (IsNewOf classes.now) files.now v.items) }
{
    let named = by_name(alloc, classes)?;
    let mut written = Vec::new(alloc);
    for file in files {
        let Some(class) = named.get(&own_name(file)) else {
            unreachable!()
        };
        written.push(write_class(alloc, class)?)?;
    }
    Ok(written)
}

/// Writes the last of classes, of which there is one.
fn write_last(alloc: Global, classes: &[ClassFile]) -> Result<Bytes, NoMemory>
    requires rules { AllByRecursion IsClassFile classes.now }
    requires some { 0 < length classes.now }
    ensures { IfOk result (λ new. (front : List Form) (last : Form) → classes.now ≡ front ++ last ∷ [] → Spells new last) }
{
    write_class(alloc, &classes[classes.len() - 1])
}

/// Whether a method is marked.
fn is_marked(method: &Method) -> bool
    ensures { result ≡ is_marked_method method.now }
{
    method.retries().is_some() && !method.is_initialiser()
}

/// How many methods are marked.
fn count_marked(methods: &[Method]) -> usize
    ensures { result ≡ length (filter is_marked_method methods.now) }
{
    let mut count = 0;
    for method in methods {
        count += usize::from(is_marked(method));
    }
    count
}
