//! Runs a generated workload: `mainline bench SEED SIZE` prints what is counted of its replies.
ghost use Rattle.std.specs.Prelude.{◌≡◌, ◌≢◌, ◌≤◌, ℕ, List, Option, IfOk, IfSome};
ghost use Rattle.bench_script.specs.Laws.{most_size};
ghost use Rattle.program.specs.Bench.{RanGenerated};
ghost use Rattle.program.specs.Outcome.{BenchEnds, TellsFaults, outside};

use crate::output::KeptOutput;
use crate::status::Status;
use bench_counts::{count_replies, put_counts};
use bench_script::generate;
use bench_script::laws::{the_text_is_short, what_is_generated_is_a_workload};
use bench_spec::Counts;
use byte_ports::{Failed, Gate, PureOutlet, Sink, write_all};
use commit_log::Disk;
use std::alloc::{AllocError, Global};
use std::sync::Wait;
use std::thread::Threads;
use store_rounds::PreparedRun;

/// Runs the workload that a seed and a size generate, and prints what is counted of its replies.
/// Its output is kept, and its export dropped.
pub(crate) fn bench<R: Wait + Threads + Sync, O: Sink, D: Disk, G: Gate + Sync>(
    rt: &R,
    alloc: Global,
    seed: u64,
    size: u32,
    out: &mut O,
    disk: &mut D,
    gate: &G,
) -> Status
    requires { size ≤ most_size }
    ensures ends { (left exported : Option (List ℕ)) (started : Option (List (List ℕ)))
        → BenchEnds seed size result
        (outside left (O.written out.old) exported started)
        (outside left (O.written out.new) exported started) }
    ensures read_faults { result ≢ Status.ReadFault }
    ensures out_faults { TellsFaults Status.OutFault result (O.faults out.old) (O.faults out.new) }
    ensures export_faults { result ≢ Status.ExportFault }
    ensures left { disk.new ≡ disk.old }
{
    let Ok(Some(counts)) = run_generated(rt, alloc, seed, size, disk, gate) else {
        return Status::Memory;
    };
    let mut text = Vec::new(alloc);
    if let Err(AllocError) = put_counts(&mut text, &counts) {
        return Status::Memory;
    }
    match write_all(out, text.as_slice()) {
        Ok(()) => Status::Done,
        Err(Failed) => Status::OutFault,
    }
}

/// Runs the workload, and counts its replies; nothing is counted where one of them was refused
/// memory.
fn run_generated<R: Wait + Threads + Sync, D: Disk, G: Gate + Sync>(
    rt: &R,
    alloc: Global,
    seed: u64,
    size: u32,
    disk: &mut D,
    gate: &G,
) -> Result<Option<Counts>, AllocError>
    requires { size ≤ most_size }
    ensures ran { IfOk result (λ told. IfSome told (λ counts. RanGenerated seed size counts)) }
    ensures left { disk.new ≡ disk.old }
{
    what_is_generated_is_a_workload();
    the_text_is_short();
    let script = generate(alloc, seed, size)?;
    let mut output = KeptOutput::new(alloc);
    let run = PreparedRun::build(alloc, script)?;
    let Ok(()) = run.run(rt, alloc, gate, None, disk, &mut output, &mut PureOutlet) else {
        return Err(AllocError);
    };
    // The run has used the script up; the replies are read by another one.
    let script = generate(alloc, seed, size)?;
    count_replies(alloc, &script, output.as_slice())
}
