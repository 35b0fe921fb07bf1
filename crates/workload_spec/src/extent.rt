//! How much of the workload format is taken.
ghost use Rattle.std.specs.Prelude.{◌≡◌};
ghost use Rattle.workload_spec.specs.Extents.{extent_of};

/// How much of the workload format is taken: what passes it is refused where it stands.
#[derive(Clone, Copy, Debug)]
pub struct Extent {
    /// The most tables.
    pub tables: u32,
    /// The most columns of a table, the key's counted.
    pub columns: u32,
    /// The most sessions.
    pub sessions: u32,
    /// The most workers.
    pub workers: u32,
    /// The most turns of a worker in a round.
    pub turns: u32,
    /// Whether a line `--` parts two rounds.
    pub parts_rounds: bool,
    /// Whether the kinds that came with the second version are taken.
    pub later_kinds: bool,
    pub commands: Commands,
}

/// Which commands are taken, by their first words.
#[derive(Clone, Copy, Debug)]
pub struct Commands {
    pub begin: bool,
    /// Whether the word `checked` is taken behind `begin`.
    pub begin_checked: bool,
    pub get: bool,
    pub scan: bool,
    pub range: bool,
    pub total: bool,
    pub insert: bool,
    pub update: bool,
    pub delete: bool,
    pub commit: bool,
    pub abort: bool,
    pub observe: bool,
    pub prune: bool,
    pub compact: bool,
    pub seal: bool,
    pub gather: bool,
    pub export: bool,
}

impl Extent {
    /// How much a version of the format takes.
    pub const fn of(version: u32) -> Extent
        ensures { result ≡ extent_of version }
    {
        Extent {
            tables: 16,
            columns: 32,
            sessions: 64,
            workers: 16,
            turns: 100,
            parts_rounds: true,
            later_kinds: version >= 2,
            commands: Commands {
                begin: true,
                begin_checked: version >= 2,
                get: true,
                scan: true,
                range: version >= 2,
                total: version >= 2,
                insert: true,
                update: true,
                delete: true,
                commit: true,
                abort: true,
                observe: true,
                prune: true,
                compact: true,
                seal: true,
                gather: true,
                export: true,
            },
        }
    }
}
