//! The classes above others.
ghost use Rattle.std.specs.Prelude.{◌≡◌, map, IfOk};
ghost use Rattle.objects.specs.linking.Superclasses.{lineage as lineage_of};

use crate::places::Places;
use const_pool::ClassFile;
use std::alloc::{AllocError, Global};

/// The first class of a name and those above it, the nearest first; at most as many as there are classes.
pub fn lineage<'a>(
    alloc: Global,
    places: &Places<'a>,
    name: &'a [u8],
) -> Result<Vec<&'a ClassFile>, AllocError>
    ensures { IfOk result (λ v. map (λ c. c.now) v.items ≡ lineage_of places.now name.now) }
{
    let mut classes = Vec::new(alloc);
    let mut place = places.place_of(name);
    let count = places.len();
    for _step in 0..count {
        let Some(class) = places.class_at(place) else {
            return Ok(classes);
        };
        classes.push(class)?;
        place = places.above(place);
    }
    Ok(classes)
}
