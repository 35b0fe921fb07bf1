//! The commits of a round, as one group for a log.
ghost use Rattle.std.specs.Prelude.{◌≡◌, ◌++◌, ◌≤◌, IfOk, OnOk, length, map};
ghost use Rattle.run_spec.specs.Commits.{write_sets};
ghost use Rattle.shared_store.specs.Store.{handed_over};
ghost use Rattle.store_rounds.specs.Grouped.{MayHaveHandedOver, TookGroup, kept_in};

use isolation_spec::WriteSet;
use run_spec::Commit;
use shared_store::Session;
use std::alloc::{AllocError, Global};

/// Takes the commits that the first so many of a row keep, and gives what these wrote, in the order
/// of their numbers.
///
/// # Errors
///
/// There is no memory for it. The commits of some of them may have been taken.
pub(crate) fn take_group(
    alloc: Global,
    sessions: usize,
    row: &mut [Session],
) -> Result<Vec<WriteSet>, AllocError>
    requires { sessions ≤ length row.old }
    ensures group { IfOk result (λ group. TookGroup sessions row.old row.new group.items) }
    ensures left { MayHaveHandedOver row.old row.new }
{
    let (owners, _) = row.split_at_mut(sessions);
    let mut commits = Vec::new(alloc);
    take_from_all(&mut commits, owners)?;
    commits.sort_unstable_by_key(|commit: &Commit| commit.number);
    sets_of(alloc, commits)
}

/// Takes the commits of each of a row.
fn take_from_all(commits: &mut Vec<Commit>, row: &mut [Session]) -> Result<(), AllocError>
    ensures commits { OnOk result (commits.new.items ≡ commits.old.items ++ kept_in row.old) }
    ensures taken { OnOk result (row.new ≡ map handed_over row.old) }
    ensures left { MayHaveHandedOver row.old row.new }
{
    let Some((one, others)) = row.split_first_mut() else {
        return Ok(());
    };
    let mut own = one.take_commits();
    commits.append(&mut own)?;
    take_from_all(commits, others)
}

/// What commits wrote.
fn sets_of(alloc: Global, commits: Vec<Commit>) -> Result<Vec<WriteSet>, AllocError>
    ensures { IfOk result (λ sets. sets.items ≡ write_sets commits.items) }
{
    let mut sets = Vec::with_capacity(alloc, commits.len())?;
    for commit in commits {
        let Commit { number: _, writes } = commit;
        sets.push(writes)?;
    }
    Ok(sets)
}
