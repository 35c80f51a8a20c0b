//! The summary of a run of a workload.
ghost use Rattle.std.specs.Prelude.{◌≡◌, ◌++◌, IfOk, OnOk, codes};
ghost use Rattle.jmodel.specs.history.Output.{line, ◌and◌};
ghost use Rattle.bankgen.specs.Summary.{head_line, summary_lines};

use jmodel::Bytes;
use std::alloc::{AllocError, Global};

/// The numbers of a workload.
#[derive(Clone, Copy)]
pub struct Figures {
    pub seed: u32,
    pub accounts: u64,
    pub calls: u64,
    pub lanes: u64,
}

fn push_head(
    alloc: Global,
    out: &mut Bytes,
    figures: Figures,
    engine: &str,
) -> Result<(), AllocError>
    ensures { OnOk result (out.new ≡ out.old ++ head_line figures engine.now) }
{
    let Figures {
        seed,
        accounts,
        calls,
        lanes,
    } = figures;
    let text = format!(in alloc; "bank {seed} {accounts} {calls} {lanes} {engine}\n")?;
    out.extend_from_slice(text.as_bytes())
}

fn push_line(alloc: Global, out: &mut Bytes, name: &str, value: &str) -> Result<(), AllocError>
    ensures { OnOk result (out.new ≡ out.old ++ line (name.now and value.now)) }
{
    let text = format!(in alloc; "{name} {value}\n")?;
    out.extend_from_slice(text.as_bytes())
}

fn push_total(out: &mut Bytes, answer: &[u8]) -> Result<(), AllocError>
    ensures { OnOk result (out.new ≡ out.old ++ line (codes "total" and answer.now)) }
{
    out.extend_from_slice(b"total ")?;
    out.extend_from_slice(answer)?;
    out.push(b'\n')
}

/// The summary of a run by this engine, with the text of the last call's answer.
pub fn summary(
    alloc: Global,
    figures: Figures,
    engine: &str,
    placed: usize,
    unplaced: usize,
    answer: &[u8],
) -> Result<Bytes, AllocError>
    ensures { IfOk result (λ text. text ≡ summary_lines figures engine.now placed unplaced answer.now) }
{
    let placed = placed.to_string(alloc)?;
    let unplaced = unplaced.to_string(alloc)?;
    let mut out = Bytes::new(alloc);
    push_head(alloc, &mut out, figures, engine)?;
    push_line(alloc, &mut out, "placed", placed.as_str())?;
    push_line(alloc, &mut out, "unplaced", unplaced.as_str())?;
    push_total(&mut out, answer)?;
    Ok(out)
}
