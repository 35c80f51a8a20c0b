//! The order in which classes start.
ghost use Rattle.std.specs.Prelude.{◌≡◌, [], map, IfOk};
ghost use Rattle.objects.specs.linking.Classes.{unseen, in_start_order as start_order};
ghost use Rattle.hierarchy.specs.Starting.{visits_of};

use crate::lineage::lineage;
use crate::names::Names;
use crate::places::Places;
use crate::symbols::own_name;
use const_pool::ClassFile;
use jmodel::NoMemory;
use std::alloc::Global;

// Each class after those above it, of which each comes again wherever it is above another.
fn visits<'a>(alloc: Global, classes: &'a [&'a ClassFile]) -> Result<Vec<&'a ClassFile>, NoMemory>
    ensures { IfOk result (λ v. map (λ c. c.now) v.items ≡ visits_of (map (λ c. c.now) classes.now) (map (λ c. c.now) classes.now)) }
{
    let places = Places::new(alloc, classes)?;
    let mut visited = Vec::new(alloc);
    for class in classes {
        let mut above = lineage(alloc, &places, own_name(class))?;
        above.reverse();
        visited.append(&mut above)?;
    }
    Ok(visited)
}

// Without those of a name that an earlier one has.
fn first_of_each<'a>(
    alloc: Global,
    classes: &[&'a ClassFile],
) -> Result<Vec<&'a ClassFile>, NoMemory>
    ensures { IfOk result (λ v. map (λ c. c.now) v.items ≡ unseen [] (map (λ c. c.now) classes.now)) }
{
    let mut names = Names::new(alloc);
    let mut firsts = Vec::new(alloc);
    for class in classes {
        if names.insert(own_name(class), b"", b"")? {
            firsts.push(*class)?;
        }
    }
    Ok(firsts)
}

/// The classes as they stand, but before each those above it.
pub fn in_start_order<'a>(
    alloc: Global,
    classes: &'a [&'a ClassFile],
) -> Result<Vec<&'a ClassFile>, NoMemory>
    ensures { IfOk result (λ v. map (λ c. c.now) v.items ≡ start_order (map (λ c. c.now) classes.now)) }
{
    let visited = visits(alloc, classes)?;
    first_of_each(alloc, visited.as_slice())
}
