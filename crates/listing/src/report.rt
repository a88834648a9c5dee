// From the bytes of a plan file to its listing.
ghost use Rattle.std.specs.Prelude.{◌≡◌, length, IfOk, string_bytes};
ghost use Rattle.plan.specs.Make.{plan_answer};
ghost use Rattle.planfile.specs.Kinds.{word_of};
ghost use Rattle.listing.specs.Outcome.{Answers, Told};
ghost use Rattle.listing.specs.Report.{cable_answer, drive_answer, list_answer, list_text, plan_listed};

use crate::cause::Cause;
use crate::lines::{Listing, Refusal};
use crate::listed::Listed;
use fault::Fault;
use gauge::house::{Cable, CableWeight, Drive, DriveWeight};
use plan::{MOST_RUNS, Plan, Run};
use std::alloc::{AllocError, Global};

// The listing of a plan file: a drive plan if its kind says so, else a cable plan.
pub fn list_plan(heap: Global, bytes: &[u8]) -> Result<String, AllocError>
    ensures { IfOk result (λ s. string_bytes s ≡ list_text bytes.now) }
{
    if planfile::is_drive(bytes) {
        return told(heap, list_drive(heap, bytes));
    }
    told(heap, list_cable(heap, bytes))
}

// The text, or the refusal as line 0.
fn told(heap: Global, listed: Result<String, Cause>) -> Result<String, AllocError>
    ensures { IfOk result (λ s. Told listed (string_bytes s)) }
{
    let fault = match listed {
        Ok(text) => return Ok(text),
        Err(Cause::File(fault)) => Fault::from(fault),
        Err(Cause::Plan(fault)) => Fault::from(fault),
        Err(Cause::Memory(error)) => return Err(error),
    };
    format!(in heap; "{}", Refusal { line: 0, fault })
}

// The run table of a listing is an array, so that a refusal takes no memory but that of its text, and is made where the kind is known: in
// generic code the size of one is not shown to fit. Two functions, since one that made either would write both at each call.
#[tactic(auto, unfolding(crate::specs::Report::cable_answer))]
fn list_cable(heap: Global, bytes: &[u8]) -> Result<String, Cause>
    ensures { Answers result (cable_answer bytes.now) }
{
    let mut table = [Run {
        tail: 0,
        head: 0,
        weight: CableWeight::default(),
    }; MOST_RUNS];
    list_in::<Cable>(heap, bytes, &mut table)
}

#[tactic(auto, unfolding(crate::specs::Report::drive_answer))]
fn list_drive(heap: Global, bytes: &[u8]) -> Result<String, Cause>
    ensures { Answers result (drive_answer bytes.now) }
{
    let mut table = [Run {
        tail: 0,
        head: 0,
        weight: DriveWeight::default(),
    }; MOST_RUNS];
    list_in::<Drive>(heap, bytes, &mut table)
}

// The listing of a file of one kind, by way of a run table.
fn list_in<K: Listed>(
    heap: Global,
    bytes: &[u8],
    table: &mut [Run<K::Weight>],
) -> Result<String, Cause>
    ensures { Answers result (list_answer K.Kind.number K.Kind.weighed K.Kind.numbers (word_of K.Listed.kind) bytes.now (length table.old)) }
{
    let header = planfile::read::<K>(bytes, table)?;
    list_runs::<K>(heap, header.points, &table[..header.runs])
}

// The listing of the plan over a run table.
fn list_runs<K: Listed>(
    heap: Global,
    points: usize,
    runs: &[Run<K::Weight>],
) -> Result<String, Cause>
    ensures { Answers result (plan_listed K.Kind.numbers (word_of K.Listed.kind) (plan_answer points runs.now)) }
{
    let plan = Plan::new(points, runs)?;
    Ok(format!(in heap; "{}", Listing::<K> { plan: &plan })?)
}
