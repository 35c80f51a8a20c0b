//! Fields of annotations, whose highest byte comes first. Each gives its value and the place after it, or its offset where it
//! isn't wholly there.
ghost use Rattle.std.specs.Prelude.{◌≡◌, option_copied, Ok, Err, IfOk, IfErr, length};
ghost use Rattle.jmodel.specs.format.ClassRules.{same_text};
ghost use Rattle.jmodel.specs.format.AnnotationReading.{run_at as run, u1_at as u1, u2_at as u2, text_at as text};
ghost use Rattle.jmodel.specs.format.AnnotationRules.{is_text as is_text_of};

use const_pool::Pool;
use jmodel::Bytes;

// The bytes from a place on, so many.
#[tactic(auto, unfolding(jmodel::specs::format::AnnotationReading::run_at))]
fn run_at(bytes: &[u8], at: usize, len: usize) -> Result<(&[u8], usize), usize>
    ensures ok { IfOk result (λ x. run bytes.now at len ≡ Ok (x.0.now, x.1)) }
    ensures len { IfOk result (λ x. length x.0.now ≡ len) }
    ensures err { IfErr result (λ e. run bytes.now at len ≡ Err e) }
{
    if bytes.len() < len || bytes.len() - len < at {
        return Err(at);
    }
    let after = at + len;
    Ok((&bytes[at..after], after))
}

/// A byte.
#[tactic(auto, unfolding(jmodel::specs::format::AnnotationReading::u1_at))]
pub fn u1_at(bytes: &[u8], at: usize) -> Result<(u8, usize), usize>
    ensures { result ≡ u1 bytes.now at }
{
    let (field, after) = run_at(bytes, at, 1)?;
    Ok((u8::from_be_bytes([field[0]]), after))
}

/// A number of two bytes.
#[tactic(auto, unfolding(jmodel::specs::format::AnnotationReading::u2_at))]
pub fn u2_at(bytes: &[u8], at: usize) -> Result<(u16, usize), usize>
    ensures { result ≡ u2 bytes.now at }
{
    let (field, after) = run_at(bytes, at, 2)?;
    Ok((u16::from_be_bytes([field[0], field[1]]), after))
}

/// The index of a text. Its offset where it isn't one.
#[tactic(auto, unfolding(jmodel::specs::format::AnnotationReading::text_at))]
pub fn text_at(pool: &Pool, bytes: &[u8], at: usize) -> Result<(u16, usize), usize>
    ensures { result ≡ text pool.now bytes.now at }
{
    let (index, after) = u2_at(bytes, at)?;
    if pool.utf8(index).is_some() {
        Ok((index, after))
    } else {
        Err(at)
    }
}

fn same(found: Option<&Bytes>, text: &[u8]) -> bool
    ensures { result ≡ same_text (option_copied found.entry) text.now }
{
    match found {
        Some(bytes) => bytes.as_slice() == text,
        None => false,
    }
}

/// Whether an index is that of this text.
pub fn is_text(pool: &Pool, text: &[u8], index: u16) -> bool
    ensures { result ≡ is_text_of pool.now text.now index }
{
    same(pool.utf8(index), text)
}
