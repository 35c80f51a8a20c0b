//! Reads over a table of shared words.
ghost use Rattle.std.specs.Prelude.{◌≡◌, ◌<◌, []};
ghost use Rattle.tx_table.specs.Book.{Unticked};
ghost use Rattle.tx_table.specs.Passes.{book, IsOf};

use jmodel::NoMemory;
use std::snapshot::Snapshot;
use tx_core::Conflict;
use tx_table::{Pass, Shared, Story};

/// A story of these words, no regions, and any entries.
#[derive(Drop)]
struct Words {
    words: Vec<u64>,
}

impl Story for Words {
    ghost use Rattle.std.specs.Prelude.{⊤, []};

    ghost story = { λ w. record { words = w.words.items; regions = []; runs = λ e. ⊤ } };
}

fn reads<T: Story>(s: &Shared<T>, pass: &mut Pass, a: u64) -> Result<u64, Conflict>
    requires table { IsOf s.now.table.shared.table_id pass.old }
    requires heap { a < s.now.words }
    requires free { ((book pass.old).face.held ≡ []) × ((book pass.old).face.stage ≡ Unticked) }
{
    let _bound = pass.begin(s);
    let _word = pass.look(s, a, false)?;
    let value = pass.load(s, a);
    pass.recheck(s, a)?;
    Ok(value)
}

#[test]
fn a_pass_reads_a_word(rt: HostRuntime) -> Result<(), NoMemory> {
    let words = vec![in rt.alloc(); 5u64, 6, 7, 8]?;
    let told = Words {
        words: words.clone()?,
    };
    let (shared, mut pass) = Shared::open(rt.alloc(), words, Snapshot::of(&told))?;
    let word = reads(&shared, &mut pass, 3);
    assert!(rt; matches!(word, Ok(8)));
    Ok(())
}
