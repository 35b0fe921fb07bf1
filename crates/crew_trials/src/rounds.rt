//! Rounds in which each of a crew says on which thread it worked.
ghost use Rattle.std.specs.Prelude.{None};
ghost use Rattle.standing_crew.specs.Desk.{Asks, IsHelper};

use standing_crew::{Client, Desk, Helper, Manned, Service, Work, stand};
use std::alloc::{AllocError, Global};
use std::fs;
use std::slice::{from_mut, from_ref};
use std::sync::{Barrier, Wait};
use std::test::Fail;
use std::thread::Threads;

/// What the system tells of the thread that reads it, its number first.
const THIS_THREAD: &str = "/proc/thread-self/stat";

/// How often a desk is looked at before a thread sleeps.
const LOOKS: u32 = 100;

/// The number of the thread that calls, or 0 where it is not told.
fn this_thread(files: &HostRuntime) -> u32 {
    let Ok(stat) = fs::read_to_string(files, THIS_THREAD) else {
        return 0;
    };
    let Some((number, _)) = stat.as_str().split_once(" ") else {
        return 0;
    };
    number.parse().unwrap_or(0)
}

/// Waits until all of a round are there, and says on which thread that was.
#[derive(Drop)]
struct Meeting {
    files: HostRuntime,
    all: Barrier,
}

/// What is done with a number: all meet, and it becomes that of the thread.
struct Met;

impl Service<u32> for Met {
    ghost may = { λ _. Unit {0} };

    ghost does = { λ _ _. Unit {0} };
}

impl Work<u32, Met> for Meeting {
    fn carry_out<R: Wait + Threads + Sync>(&self, rt: &R, _parcel: u32) -> u32 {
        self.all.wait(rt);
        this_thread(&self.files)
    }
}

/// On which threads a round was: the one here, and the one at the desk.
#[derive(Clone, Copy, Debug, PartialEq, Eq)]
struct Told {
    here: u32,
    there: u32,
}

/// A round of two, of which one is at the desk.
fn meet<R: Wait + Threads + Sync>(
    rt: &R,
    desk: &Desk<u32, Met>,
    meeting: &Meeting,
    client: &mut Client<u32>,
) -> Told
    requires { Asks desk.now None client.old }
    ensures { Asks desk.now None client.new }
{
    desk.hand_over(rt, client, 0);
    let here = meeting.carry_out(rt, 0);
    let there = desk.fetch(rt, meeting, LOOKS, client);
    Told { here, there }
}

/// Two rounds of two, of which one is at the desk.
fn meet_twice<R: Wait + Threads + Sync>(
    rt: &R,
    desk: &Desk<u32, Met>,
    meeting: &Meeting,
    client: &mut Client<u32>,
) -> [Told; 2]
    requires { Asks desk.now None client.old }
    ensures { Asks desk.now None client.new }
{
    let first = meet(rt, desk, meeting, client);
    let second = meet(rt, desk, meeting, client);
    [first, second]
}

/// Two rounds of two with a crew of one thread.
fn rounds_with<R: Wait + Threads + Sync>(
    rt: &R,
    desk: &Desk<u32, Met>,
    meeting: &Meeting,
    client: &mut Client<u32>,
    helper: &mut Helper<u32>,
) -> [Told; 2]
    requires client { Asks desk.now None client.old }
    requires helper { IsHelper desk.now helper.old }
{
    let mut here = ||
        requires { Asks desk.now None client.now }
    { meet_twice(rt, desk, meeting, client) };
    stand(
        rt,
        from_ref(desk),
        meeting,
        LOOKS,
        from_mut(helper),
        &mut here,
    )
}

/// Two rounds of two, one here and one at a desk.
fn rounds<R: Wait + Threads + Sync>(
    rt: &R,
    files: HostRuntime,
    alloc: Global,
) -> Result<[Told; 2], AllocError> {
    let meeting = Meeting {
        files,
        all: Barrier::new(2),
    };
    let Manned {
        desk,
        mut client,
        mut helper,
    } = Desk::man(alloc)?;
    Ok(rounds_with(rt, &desk, &meeting, &mut client, &mut helper))
}

/// Both of a round are at work at the same time, each on its own thread: else the first would wait
/// for ever. The second round is on the threads of the first.
#[test]
fn a_second_round_is_on_the_threads_of_the_first(rt: HostRuntime) -> Result<(), Fail> {
    let [first, second] = rounds(&rt, rt, rt.alloc())?;
    assert_eq!(rt; second, first);
    assert!(rt; first.here != first.there && first.there != 0);
    Ok(())
}
