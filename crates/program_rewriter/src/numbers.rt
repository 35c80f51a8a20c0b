//! Numbers of the methods that are added, behind the old ones.
ghost use Rattle.std.specs.Prelude.{◌≡◌, ◌+◌, ◌*◌, IfOk};
ghost use Rattle.objects.specs.rewriting.Rewriting.{getter as number_of_getter, setter as number_of_setter, duplicate as number_of_duplicate, helper_place as place_in_helper, element_getter as number_of_load, element_setter as number_of_store};

use hierarchy::Program;
use jmodel::NoMemory;
use objects::op::WordType;

/// A sum. What is counted is in memory, which holds no more than a number says.
pub(crate) fn sum(a: usize, b: usize) -> Result<usize, NoMemory>
    ensures { IfOk result (λ n. n ≡ a + b) }
{
    a.checked_add(b).ok_or(NoMemory)
}

fn twice(n: usize) -> Result<usize, NoMemory>
    ensures { IfOk result (λ m. m ≡ 2 * n) }
{
    n.checked_mul(2).ok_or(NoMemory)
}

/// The number of a field's getter.
pub(crate) fn getter(program: &Program, field: usize) -> Result<usize, NoMemory>
    ensures { IfOk result (λ n. n ≡ number_of_getter program.now field) }
{
    sum(program.methods().len(), twice(field)?)
}

/// The number of its setter.
pub(crate) fn setter(program: &Program, field: usize) -> Result<usize, NoMemory>
    ensures { IfOk result (λ n. n ≡ number_of_setter program.now field) }
{
    sum(getter(program, field)?, 1)
}

/// The number of a method's duplicate.
pub(crate) fn duplicate(program: &Program, method: usize) -> Result<usize, NoMemory>
    ensures { IfOk result (λ n. n ≡ number_of_duplicate program.now method) }
{
    let accessors = twice(program.fields().len())?;
    sum(sum(program.methods().len(), accessors)?, method)
}

// The place of an element's type among those of the helper.
fn helper_place(word: WordType) -> usize
    ensures { result ≡ place_in_helper word }
{
    match word {
        WordType::Byte => 0,
        WordType::Boolean => 1,
        WordType::Char => 2,
        WordType::Short => 3,
        WordType::Int => 4,
        WordType::Long => 5,
        WordType::Reference => 6,
    }
}

/// The number of the helper's method that reads an element.
pub(crate) fn element_getter(program: &Program, word: WordType) -> Result<usize, NoMemory>
    ensures { IfOk result (λ n. n ≡ number_of_load program.now word) }
{
    let first = duplicate(program, program.methods().len())?;
    sum(first, twice(helper_place(word))?)
}

/// The number of the one that writes one.
pub(crate) fn element_setter(program: &Program, word: WordType) -> Result<usize, NoMemory>
    ensures { IfOk result (λ n. n ≡ number_of_store program.now word) }
{
    sum(element_getter(program, word)?, 1)
}
