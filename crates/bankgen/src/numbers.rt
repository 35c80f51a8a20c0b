//! Numbers in words of the command line.
ghost use Rattle.std.specs.Prelude.{MatchOption, IfOk};
ghost use Rattle.bankgen.specs.Numbers.{IsNumber, IsNoNumber};

use std::alloc::{AllocError, Global};

/// The most digits of a number, as the least number that has more.
const LIMIT: u64 = 10_000_000_000;

/// The number that a word is, of at most ten decimal digits without a 0 before it.
pub fn number_in(alloc: Global, word: &str) -> Result<Option<u64>, AllocError>
    ensures { IfOk result (λ o. MatchOption o (IsNoNumber word.now) (IsNumber word.now)) }
{
    let Ok(number) = word.parse::<u64>() else {
        return Ok(None);
    };
    let digits = number.to_string(alloc)?;
    if number < LIMIT && digits.as_str() == word {
        return Ok(Some(number));
    }
    Ok(None)
}
