//! Two threads claim side by side.
ghost use Rattle.std.specs.Prelude.{◌<◌};
ghost use Rattle.claims.specs.Passes.{claims_of, IsOf};

use claims::{Bag, BagPass};
use jmodel::NoMemory;
use std::alloc::{AllocError, Global};
use std::thread::{Threads, join_mut};

/// Claims indexes until there are none. Gives them in the order in which they were claimed.
fn claim_all(alloc: Global, bag: &Bag, pass: &mut BagPass) -> Result<Vec<u32>, AllocError>
    requires bag { IsOf bag.now pass.old }
    requires left { bag.now.length < (claims_of pass.old).left }
    ensures { IsOf bag.now pass.new }
{
    let mut indexes = Vec::new(alloc);
    for _ in 0..=bag.length {
        let Some(index) = pass.claim(bag) else {
            break;
        };
        indexes.push(index)?;
    }
    Ok(indexes)
}

fn both<R: Threads + Sync>(
    rt: &R,
    alloc: Global,
    bag: &Bag,
    one: &mut BagPass,
    two: &mut BagPass,
) -> (Result<Vec<u32>, AllocError>, Result<Vec<u32>, AllocError>)
    requires bag { IsOf bag.now one.old × IsOf bag.now two.old }
    requires one { bag.now.length < (claims_of one.old).left }
    requires two { bag.now.length < (claims_of two.old).left }
    ensures { IsOf bag.now one.new × IsOf bag.now two.new }
{
    join_mut(
        rt,
        &mut || claim_all(alloc, bag, one),
        &mut || claim_all(alloc, bag, two),
    )
}

/// What two threads claim of a bag, the one behind the other.
fn claimed<R: Threads + Sync>(rt: &R, alloc: Global) -> Result<Vec<u32>, NoMemory> {
    let (bag, mut pass) = Bag::open(alloc, 10_000)?;
    let mut other = pass.split(&bag);
    let (first, second) = both(rt, alloc, &bag, &mut pass, &mut other);
    pass.join(&bag, other);
    let mut all = first?;
    all.append(&mut second?)?;
    Ok(all)
}

#[test]
fn two_threads_claim_each_index_once(rt: HostRuntime) -> Result<(), NoMemory> {
    let mut all = claimed(&rt, rt.alloc())?;
    all.sort()?;
    assert!(rt;
        all.len() == 10_000
            && all
                .iter()
                .zip(0..10_000)
                .all(|(found, index)| *found == index)
    );
    Ok(())
}
