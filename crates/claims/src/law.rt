//! The rule of the claims, and what each step tells its pass.
ghost use Rattle.std.specs.Prelude.{ℕ};
ghost use Rattle.claims.specs.Claims.{Claims, first_claims, no_claims, stays, goes, joined};
ghost use Rattle.claims.specs.Steps.{IsKept, Takes};

use atomic_table::{Join, Play, Split, TableRule};
use std::marker::{Brand, Model, PhantomData};

/// What a pass knows. No value of this type is made.
pub struct View {}

impl Model for View {
    ghost Value = { Claims };

    ghost view = { λ _. no_claims };
}

/// The rule of the claims.
pub struct Law {}

impl TableRule<(), View, ()> for Law {
    ghost holds = { λ _. IsKept };

    ghost first = { λ _. first_claims };
}

/// How many claims go to the other pass.
pub(crate) trait Sharing {
    ghost count: { ℕ };
}

impl Sharing for Brand {
    ghost count = { 0 };
}

pub(crate) struct Claim;

impl Play<(), View> for Claim {
    ghost then = { Takes };
}

pub(crate) struct Part<G> {
    told: PhantomData<G>,
}

impl<G: Sharing> Split<View> for Part<G> {
    ghost left = { stays G.count };

    ghost right = { λ _. goes G.count };
}

pub(crate) struct Merge;

impl Join<View> for Merge {
    ghost both = { joined };

    ghost spent = { no_claims };
}
