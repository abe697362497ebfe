// The table of servers and tasks, the rules that it obeys, and the span that its periods give.
#![tactic(auto)]

mod euclid;
pub mod multiples;
pub mod ranges;
mod rules;

ghost use Rattle.std.specs.Prelude.{◌≡◌};
ghost use Rattle.table.specs.Rules.{obeys};
ghost use Rattle.table.specs.Span.{period_of};
ghost use Rattle.table.specs.declared.Release.TheVariants.{Once};

// Whether a server holds ticks without work.
#[derive(Clone, Copy, Default, PartialEq, Eq)]
pub enum Kind {
    #[default]
    Deferrable,
    Periodic,
}

// By default all numbers are 0, as in no table that obeys the rules.
#[derive(Clone, Copy, Default)]
pub struct Server {
    pub kind: Kind,
    pub capacity: u32,
    pub period: u32,
}

// A task is released once, at its instant, or at its offset and every period after it.
#[derive(Clone, Copy)]
pub enum Release {
    Once(u32),
    Every(u32, u32),
}

impl Default for Release {
    ghost is_default = { λ release. release ≡ Once 0 };

    fn default() -> Release {
        Release::Once(0)
    }
}

impl Release {
    // The period, of a release that has one.
    pub fn period(self) -> Option<u32>
        ensures { result ≡ period_of self }
    {
        match self {
            Release::Once(_) => None,
            Release::Every(_, period) => Some(period),
        }
    }
}

#[derive(Clone, Copy, Default)]
pub struct Task {
    pub server: u32,
    pub work: u32,
    pub release: Release,
    pub deadline: u32,
}

// Entries beyond the counts mean nothing. They are arrays with counts beside them, since the calls for C hand in any counts: a table with too many has
// to be a table, so that it is refused with 13. No type says that a table obeys the rules: the specifications, the calls for C and the answers speak of
// the plain table, and each contract would say `.table` where it says `Obeyed table` once.
#[derive(Clone, Copy)]
pub struct Table {
    pub span: u32,
    pub servers_n: usize,
    pub tasks_n: usize,
    pub servers: [Server; 16],
    pub tasks: [Task; 64],
}

// Whether a table obeys the rules: its counts, the ranges of its numbers, no capacity above its period, each task's server there.
pub fn obeys_rules(table: Table) -> bool
    ensures { result ≡ obeys table }
{
    ranges::within(table.servers_n, 16)
        && ranges::within(table.tasks_n, 64)
        && ranges::in_ticks(table.span)
        && rules::servers_obey(table)
        && rules::tasks_obey(table)
}
