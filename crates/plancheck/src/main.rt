// Prints the plan in plan.bay point by point, or the refusal that it meets.
#![tactic(auto)]

use listing::list_plan;
use std::io::ErrorKind;
use std::{fs, io};

// The bytes of plan.bay; a missing file is read as empty.
fn plan_bytes(rt: &HostRuntime) -> io::Result<Vec<u8>> {
    match fs::read(rt, "plan.bay") {
        Err(e) if e.kind() == ErrorKind::NotFound => Ok(Vec::new(rt.alloc())),
        read => read,
    }
}

fn main(rt: HostRuntime) -> io::Result<()> {
    let bytes = plan_bytes(&rt)?;
    let text = list_plan(rt.alloc(), bytes.as_slice())?;
    print!(rt; "{text}")
}
