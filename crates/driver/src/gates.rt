//! The gates of lanes, which go to the lanes' threads and come back.
ghost use Rattle.std.specs.Prelude.{◌≡◌, ◌≤◌, ◌++◌, List, Ok, length, map, IfOk};

use std::alloc::{AllocError, Global};

/// Gives each of these, which are to run, a gate: the first one the first gate, and so on. The other gates stay.
pub(crate) fn give_gates<X: Drop, G: Drop>(
    alloc: Global,
    ones: Vec<X>,
    gates: &mut Vec<G>,
) -> Result<Vec<(X, G)>, AllocError>
    requires { length ones.items ≤ length gates.old.items }
    ensures ones { IfOk result (λ given. map (λ p. p.0) given.items ≡ ones.items) }
    ensures gates { IfOk result (λ given. map (λ p. p.1) given.items ++ gates.new.items ≡ gates.old.items) }
{
    let mut given = Vec::new(alloc);
    for one in ones {
        given.push((one, gates.remove(0)))?;
    }
    Ok(given)
}

/// Takes the gates back, in their order, from those that have run.
pub(crate) fn take_gates<X: Drop, G: Drop>(
    alloc: Global,
    ends: Vec<Result<(X, G), AllocError>>,
    gates: &mut Vec<G>,
) -> Result<Vec<Result<X, AllocError>>, AllocError>
    ensures { IfOk result (λ left. (ran : List (X × G)) × (ends.items ≡ map Ok ran) × (left.items ≡ map (λ r. Ok r.0) ran) × (gates.new.items ≡ map (λ r. r.1) ran ++ gates.old.items)) }
{
    let mut left = Vec::new(alloc);
    let mut back = Vec::new(alloc);
    for end in ends {
        let (one, gate) = end?;
        left.push(Ok(one))?;
        back.push(gate)?;
    }
    back.append(gates)?;
    *gates = back;
    Ok(left)
}
