//! What a program reads and writes, as traits that tell the bytes to contracts.
#![tactic(auto)]

mod borrowed;
mod copies;
mod doubles;
mod faults;
mod files;
mod ports;
mod pure;
mod std_ports;
mod whole;

pub use doubles::{ListOutlet, ListSink, ListSource};
pub use files::{FileOutlet, MakeFiles, SystemFiles};
pub use ports::{Failed, Gate, OpenGate, Outlet, Sink, Source};
pub use pure::{PureOutlet, PureSink, PureSource};
pub use std_ports::{StdSink, StdSource};
pub use whole::{InputFault, read_to_end, write_all};
