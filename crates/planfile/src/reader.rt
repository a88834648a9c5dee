// Reading a plan file: all refusals come before the first write.
ghost use Rattle.std.specs.Prelude.{◌≡◌, ◌<◌, ◌≤◌, true, length, is_ok, Decides};
ghost use Rattle.planfile.specs.Meaning.{Readable, Placed};
ghost use Rattle.planfile.specs.File.{size, is_drive, header_answer, run_at, runs_from, done, filled, file_answer, file_table};

use crate::body::Body;
use crate::kinds::Kind;
use crate::numbers::bytes_at;
use crate::plan_kind::PlanKind;
use fault::FileFault;
use plan::{MOST_POINTS, MOST_RUNS, Run};

// What an accepted file counts. The runs stand in the first places of a table that is the caller's, so they are told by their number.
#[derive(Clone, Copy, Debug, PartialEq, Eq)]
pub struct Header {
    pub points: usize,
    pub runs: usize,
}

// Whether a file says that it is a drive plan.
pub fn is_drive(bytes: &[u8]) -> bool
    ensures { result ≡ is_drive bytes.now }
{
    if bytes.len() < 6 {
        return false;
    }
    let number = u16::from_le_bytes(bytes_at(bytes, 4));
    matches!(PlanKind::try_from(number), Ok(PlanKind::Drive))
}

// Reads a file of one kind into the first places of the run table.
#[tactic(auto, unfolding(crate::specs::File::file_answer, crate::specs::File::file_runs, crate::specs::File::file_table))]
pub fn read<K: Kind>(bytes: &[u8], table: &mut [Run<K::Weight>]) -> Result<Header, FileFault>
    ensures answer { result ≡ file_answer K.Kind.number K.Kind.weighed bytes.now (length table.old) }
    ensures after { table.new ≡ file_table K.Kind.number K.Kind.weighed bytes.now table.old }
    ensures readable { Decides (is_ok result) (Readable K.Kind.number K.Kind.weighed bytes.now (length table.old)) }
    ensures placed { Placed K.Kind.weighed bytes.now result table.old table.new }
{
    let header = read_header(bytes, K::number(), table.len())?;
    let runs = header.runs;
    let body = Body { bytes, runs };
    body.check_weights::<K>()?;
    body.fill::<K>(table);
    Ok(header)
}

// The sizes, the kind, and whether bytes and table are as long as they ask.
fn read_header(bytes: &[u8], number: u16, room: usize) -> Result<Header, FileFault>
    ensures { result ≡ header_answer number bytes.now room }
{
    if bytes.len() < 6 {
        return Err(FileFault::Short(bytes.len()));
    }
    let points = usize::from(u16::from_le_bytes(bytes_at(bytes, 0)));
    let runs = usize::from(u16::from_le_bytes(bytes_at(bytes, 2)));
    let kind = u16::from_le_bytes(bytes_at(bytes, 4));
    if !(1..=MOST_POINTS).contains(&points) {
        return Err(FileFault::Points(points));
    }
    if runs > MOST_RUNS {
        return Err(FileFault::Runs(runs));
    }
    // Numbers, since a gauge's kind of file may have one of its own.
    if kind != number {
        return Err(FileFault::Kind(usize::from(kind)));
    }
    let size = 6 + 16 * runs;
    if bytes.len() < size {
        return Err(FileFault::Short(bytes.len()));
    }
    if bytes.len() > size {
        return Err(FileFault::Long(size));
    }
    if room < runs {
        return Err(FileFault::Table(runs));
    }
    Ok(Header { points, runs })
}
