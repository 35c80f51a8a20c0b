//! Transfers, drawn by a linear congruential generator.
ghost use Rattle.std.specs.Prelude.{◌≡◌, ◌<◌, ◌*◌, ◌+◌, ◌/◌, ◌^◌, IfOk, map, ℕ};
ghost use Rattle.bankgen.specs.Transfers.{next as next_of, after, transfer as transfer_of};
ghost use Rattle.bankgen.specs.Script.{numbers};

use std::alloc::{AllocError, Global};

/// The accounts that an amount goes from and to, and the amount.
#[derive(Clone, Copy)]
pub struct Transfer {
    pub from: u64,
    pub to: u64,
    pub amount: u64,
}

fn draw(state: &mut u64) -> u64
    ensures state { state.new ≡ next_of state.old }
    ensures drawn { result ≡ next_of state.old / 2 ^ 33 }
{
    *state = state
        .wrapping_mul(6_364_136_223_846_793_005)
        .wrapping_add(1_442_695_040_888_963_407);
    *state >> 33
}

// The next transfer: where the state is that after the draws of k calls, the transfer of call k.
fn next_transfer(state: &mut u64, accounts: u64) -> Transfer
    requires { 0 < accounts }
    ensures transfer { (seed k : ℕ) → state.old ≡ after seed (3 * k) → result ≡ transfer_of seed accounts k }
    ensures state { (seed k : ℕ) → state.old ≡ after seed (3 * k) → state.new ≡ after seed (3 * (k + 1)) }
{
    let from = draw(state) % accounts;
    let to = draw(state) % accounts;
    let amount = draw(state) % 10 + 1;
    Transfer { from, to, amount }
}

/// As many transfers as there are calls.
pub fn transfers(
    alloc: Global,
    seed: u32,
    accounts: u64,
    calls: u64,
) -> Result<Vec<Transfer>, AllocError>
    requires { 0 < accounts }
    ensures { IfOk result (λ v. v.items ≡ map (transfer_of seed accounts) (numbers calls)) }
{
    let mut state = u64::from(seed);
    let mut drawn = Vec::new(alloc);
    for _k in 0..calls {
        drawn.push(next_transfer(&mut state, accounts))?;
    }
    Ok(drawn)
}
