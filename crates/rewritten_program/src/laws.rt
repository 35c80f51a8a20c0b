//! What the classes of a rewritten folder are, and what they mean.
ghost use Rattle.rewritten_program.specs.Keeps.{HeadsLaw};
ghost use Rattle.rewritten_program.specs.Meaning.{MeaningLaw};

use array_helper::laws::helper_law;
use dup_methods::laws::duplicate_law;
use field_members::laws::accessors_law;
use retry_wrapper::laws::wrapper_law;
use rewritten_code::laws::{old_law, same_head_law};
use rewritten_ties::laws::{known_law, root_law, start_law, ties_law};

/// A rewritten folder has of each class its rewriting: the heads of the class's members, the old methods at their indexes, accessors, and duplicates; and
/// behind these the helper of arrays.
pub fn heads_law()
    ensures { HeadsLaw }
{}

/// The rewriting of a folder's classes, read again over their program, is the rewritten program.
pub fn meaning_law()
    ensures { MeaningLaw }
{
    old_law();
    same_head_law();
    ties_law();
    known_law();
    root_law();
    start_law();
    duplicate_law();
    accessors_law();
    wrapper_law();
    helper_law();
}
