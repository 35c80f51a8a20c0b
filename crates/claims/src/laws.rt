//! What the rule says, in words of numbers.
ghost use Rattle.std.specs.Prelude.{ℕ, List};
ghost use Rattle.claims.specs.Claims.{Claims, Rule, Shows};

/// Where the rule holds, no number was claimed twice, each number below the word was claimed, and no other.
pub fn rule_shows()
    ensures { (words : List ℕ) (views : List Claims) → Rule words views → Shows words views }
{}
