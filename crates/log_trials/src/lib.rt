//! Tests of logs of commits: their bytes, disks that are stopped at a call, and crashes that tear
//! what was written.
#![tactic(auto)]

#[cfg(test)]
mod common;
#[cfg(test)]
mod crashes;
#[cfg(test)]
mod files;
#[cfg(test)]
mod forms;
#[cfg(test)]
mod records;
