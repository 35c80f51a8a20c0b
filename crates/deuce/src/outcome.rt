//! How a command ends, before anything is written.
ghost use Rattle.std.specs.Prelude.{◌≡◌, ◌++◌, ◌∷◌, [], IfOk, codes};
ghost use Rattle.jmodel.specs.history.Output.{◌and◌, answer_text, refusal_text, error_text};
ghost use Rattle.deuce.specs.Outcomes.{IsTextOf};
ghost use Rattle.deuce.specs.Rewritten.{counts_text};

use crate::refusal::push_refusal;
use jmodel::{Answer, Bytes, Refusal};
use runner::push_answer;
use std::alloc::{AllocError, Global};

/// How a command ends.
#[derive(Drop)]
pub enum Outcome {
    /// With a journal, of which this is the text.
    Journal(Bytes),
    /// With a summary of a bank's run, of which this is the text.
    Summary(Bytes),
    /// With new class files, so many, which were put: so many methods of their classes are taken, and so many of these are marked.
    Rewritten {
        classes: usize,
        taken: usize,
        marked: usize,
    },
    /// The words were of no form.
    Usage,
    /// The file at this path, the first such, is no class file, with the first fault.
    BadClass {
        path: String,
        refusal: Refusal,
    },
    /// A folder lies too deep, or there are too many class files. Or their classes have this fault, one has the path of the helper of arrays, a
    /// constructor stores too early, or their rewriting passes this limit. Or a number of a bank is outside its limits.
    BadProgram(Refusal),
    /// A method of the classes has no typing.
    Untyped(Refusal),
    /// The script is none for the classes, with the first rule that it breaks.
    BadScript(Refusal),
    /// A static initialiser of the class of this name doesn't return, but ends so.
    Unopened {
        class: Bytes,
        answer: Answer,
    },
    /// A list or a read of the folder failed at this path.
    Outside(String),
    /// The put at this path failed.
    NotPut(String),
}

fn bad_class_line(alloc: Global, path: &str, refusal: &Refusal) -> Result<Bytes, AllocError>
    ensures { IfOk result (λ line. line ≡ error_text (codes "3") (path.now and refusal_text refusal.now)) }
{
    let mut line = Bytes::from_slice(alloc, b"error 3 ")?;
    line.extend_from_slice(path.as_bytes())?;
    line.push(b' ')?;
    push_refusal(alloc, &mut line, refusal)?;
    line.push(b'\n')?;
    Ok(line)
}

// The line of a refusal that has no path, behind its head.
fn refusal_line(alloc: Global, head: &[u8], refusal: &Refusal) -> Result<Bytes, AllocError>
    ensures { IfOk result (λ line. line ≡ head.now ++ (refusal_text refusal.now ++ 10 ∷ [])) }
{
    let mut line = Bytes::from_slice(alloc, head)?;
    push_refusal(alloc, &mut line, refusal)?;
    line.push(b'\n')?;
    Ok(line)
}

// The line of a class a static initialiser of which ends so.
fn unopened_line(alloc: Global, class: &Bytes, answer: &Answer) -> Result<Bytes, AllocError>
    ensures { IfOk result (λ line. line ≡ error_text (codes "7") (class.now and answer_text answer.now)) }
{
    let mut line = Bytes::from_slice(alloc, b"error 7 ")?;
    line.extend_from_slice(class.as_slice())?;
    line.push(b' ')?;
    push_answer(alloc, &mut line, answer)?;
    line.push(b'\n')?;
    Ok(line)
}

// The line of a path, behind its head.
fn path_line(alloc: Global, head: &[u8], path: &str) -> Result<Bytes, AllocError>
    ensures { IfOk result (λ line. line ≡ head.now ++ (path.now ++ 10 ∷ [])) }
{
    let mut line = Bytes::from_slice(alloc, head)?;
    line.extend_from_slice(path.as_bytes())?;
    line.push(b'\n')?;
    Ok(line)
}

// How many classes there are, and how many of their methods are taken and marked.
fn counts(alloc: Global, classes: usize, taken: usize, marked: usize) -> Result<Bytes, AllocError>
    ensures { IfOk result (λ text. text ≡ counts_text classes taken marked) }
{
    let text = format!(in alloc; "classes {classes}\ntaken {taken}\natomic {marked}\n")?;
    Bytes::from_slice(alloc, text.as_bytes())
}

/// The text that is printed.
pub fn text_of(alloc: Global, outcome: Outcome) -> Result<Bytes, AllocError>
    ensures { IfOk result (IsTextOf outcome) }
{
    match outcome {
        Outcome::Journal(text) | Outcome::Summary(text) => Ok(text),
        Outcome::Rewritten {
            classes,
            taken,
            marked,
        } => counts(alloc, classes, taken, marked),
        Outcome::Usage => Bytes::from_slice(alloc, b"error 2 usage\n"),
        Outcome::BadClass { path, refusal } => bad_class_line(alloc, path.as_str(), &refusal),
        Outcome::BadProgram(refusal) => refusal_line(alloc, b"error 4 ", &refusal),
        Outcome::Untyped(refusal) => refusal_line(alloc, b"error 5 ", &refusal),
        Outcome::BadScript(refusal) => refusal_line(alloc, b"error 6 ", &refusal),
        Outcome::Unopened { class, answer } => unopened_line(alloc, &class, &answer),
        Outcome::Outside(path) => path_line(alloc, b"error 8 ", path.as_str()),
        Outcome::NotPut(path) => path_line(alloc, b"error 11 ", path.as_str()),
    }
}

impl Outcome {
    ghost use Rattle.std.specs.Prelude.{◌≡◌};
    ghost use Rattle.deuce.specs.Outcomes.{status_of};

    /// The exit status, where the text is written whole. Takes no memory.
    pub fn status(&self) -> u8
        ensures { result ≡ status_of self.now }
    {
        match self {
            Outcome::Journal(_) | Outcome::Summary(_) | Outcome::Rewritten { .. } => 0,
            Outcome::Usage => 2,
            Outcome::BadClass { .. } => 3,
            Outcome::BadProgram(_) => 4,
            Outcome::Untyped(_) => 5,
            Outcome::BadScript(_) => 6,
            Outcome::Unopened { .. } => 7,
            Outcome::Outside(_) => 8,
            Outcome::NotPut(_) => 11,
        }
    }
}
