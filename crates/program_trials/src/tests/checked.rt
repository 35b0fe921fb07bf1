//! A checked session beside three plain ones over many short rounds: each run is explained.
ghost use Rattle.std.specs.Prelude.{◌<◌};

use super::{NOTHING_FAILS, run};
use program::Status;
use std::alloc::{AllocError, Global};
use std::sync::Wait;
use std::test::Fail;
use std::thread::Threads;

const HEAD: &str =
    "store 2\ntable a key:i64 v:u32 slots 32 blocks 2\nsessions 4\nworkers 1 1\ngo\n";

/// The keys are those below.
const KEYS: u32 = 8;

const ROUNDS: u32 = 250;

const RUNS: u32 = 4;

/// Numbers that look like chance, one after another.
#[derive(Drop)]
struct Chance {
    state: u32,
}

impl Chance {
    fn below(&mut self, most: u32) -> u32
        requires { 0 < most }
    {
        self.state = self
            .state
            .wrapping_mul(1_664_525)
            .wrapping_add(1_013_904_223);
        (self.state >> 16) % most
    }
}

/// What a session does in a round: it opens a transaction, checked if it is the first session, reads
/// one key, or the table, and writes another.
fn push_session(
    alloc: Global,
    text: &mut String,
    session: u32,
    chance: &mut Chance,
) -> Result<(), AllocError> {
    let word = if session == 1 { " checked" } else { "" };
    let got = chance.below(KEYS);
    let written = chance.below(KEYS);
    let value = chance.below(1000);
    let q = session;
    text.push_str(format!(in alloc; "{q} begin{word}\n")?.as_str())?;
    if chance.below(8) == 0 {
        text.push_str(format!(in alloc; "{q} scan a\n")?.as_str())?;
    } else {
        text.push_str(format!(in alloc; "{q} get a {got}\n")?.as_str())?;
    }
    let word = if chance.below(4) == 0 {
        "insert"
    } else {
        "update"
    };
    text.push_str(format!(in alloc; "{q} {word} a {written} {value}\n")?.as_str())?;
    text.push_str(format!(in alloc; "{q} commit\n{q} abort\n")?.as_str())
}

/// A workload of many short rounds.
fn workload(alloc: Global, chance: &mut Chance) -> Result<String, AllocError> {
    let mut text = String::from_str(alloc, HEAD)?;
    for round in 0..ROUNDS {
        if round > 0 {
            text.push_str("--\n")?;
        }
        for session in 1..5 {
            push_session(alloc, &mut text, session, chance)?;
        }
    }
    Ok(text)
}

/// A workload, and behind it its output.
fn behind_workload(alloc: Global, workload: &str, output: &[u8]) -> Result<Vec<u8>, AllocError> {
    let mut both = Vec::new(alloc);
    both.extend_from_slice(workload.as_bytes())?;
    both.extend_from_slice(b"====\n".as_slice())?;
    both.extend_from_slice(output)?;
    Ok(both)
}

/// Runs a workload, and lets its output be checked.
fn is_explained<R: Wait + Threads + Sync>(
    rt: &R,
    alloc: Global,
    workload: &str,
) -> Result<bool, AllocError> {
    let words = ["mainline", "run"];
    let ended = run(rt, alloc, &words, workload.as_bytes(), NOTHING_FAILS)?;
    if ended.status != Status::Done {
        return Ok(false);
    }
    let both = behind_workload(alloc, workload, ended.out.written())?;
    let words = ["mainline", "check"];
    let checked = run(rt, alloc, &words, both.as_slice(), NOTHING_FAILS)?;
    Ok(checked.out.written() == b"explained\n".as_slice())
}

#[test]
fn a_checked_session_beside_three_plain_ones_is_explained(rt: HostRuntime) -> Result<(), Fail> {
    let mut chance = Chance { state: 1 };
    for at in 0..RUNS {
        let text = workload(rt.alloc(), &mut chance)?;
        assert!(rt; is_explained(&rt, rt.alloc(), text.as_str())?, "run {at}");
    }
    Ok(())
}
