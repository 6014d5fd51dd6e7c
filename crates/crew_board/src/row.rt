//! What each worker has for itself.

ghost use Rattle.std.specs.Prelude.{◌≡◌, ◌≤◌, [], IfOk, vec_len, vec_capacity};

use crate::board::Seated;
use crate::task::Scratch;
use fsw_outside::NoMemory;
use std::alloc::Global;

/// A worker's scratches, one for each job, the jobs that it drew, and its seat at the claim board while there is one.
#[derive(Drop)]
pub(crate) struct Row<S> {
    pub(crate) scratches: Vec<S>,
    pub(crate) drawn: Vec<u32>,
    pub(crate) seat: Option<Seated>,
}

/// So many fresh scratches.
fn fresh_scratches<S: Scratch>(alloc: Global, jobs: u32) -> Result<Vec<S>, NoMemory>
    ensures { IfOk result (λ scratches. vec_len scratches ≡ jobs) }
{
    let mut scratches = Vec::with_capacity(alloc, jobs as usize)?;
    for _job in 0..jobs {
        scratches.push(S::fresh(alloc)?)?;
    }
    Ok(scratches)
}

/// A row for so many jobs, none of which it drew.
pub(crate) fn open_row<S: Scratch>(alloc: Global, jobs: u32) -> Result<Row<S>, NoMemory>
    ensures scratches { IfOk result (λ row. vec_len row.scratches ≡ jobs) }
    ensures room { IfOk result (λ row. jobs ≤ vec_capacity row.drawn) }
    ensures drawn { IfOk result (λ row. row.drawn.items ≡ []) }
{
    let scratches = fresh_scratches(alloc, jobs)?;
    let drawn = Vec::with_capacity(alloc, jobs as usize)?;
    Ok(Row {
        scratches,
        drawn,
        seat: None,
    })
}
