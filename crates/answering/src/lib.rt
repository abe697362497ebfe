// The answers of a table's servers and tasks, and who holds a tick of it, worked out on six work buffers in one walk down the servers.
#![tactic(auto)]

ghost use Rattle.std.specs.Prelude.{◌≡◌, false, ◌≤◌, length, get_or};
ghost use Rattle.table.specs.Places.{Obeyed, first_of};
ghost use Rattle.buffers.specs.Work.{Same};
ghost use Rattle.answering.specs.Noted.{NoNotes, AllNoted};

use answers::{Response, ServerAnswer};
use buffers::put;
use buffers::work::Work;
use judging::covering::covers;
use judging::periods::answer_server;
use noting::{PlaceNotes, answer_tasks};
use serving::hold_in_work;
use table::Table;

// What is noted of the servers, and which hold the tick asked for; and of the tasks, and which run in it.
#[derive(Clone, Copy)]
pub struct Notes {
    pub servers: PlaceNotes<ServerAnswer, 16>,
    pub tasks: PlaceNotes<Response, 64>,
}

// Before any server and task.
pub fn no_notes() -> Notes
    ensures { NoNotes result }
{
    let no_server = ServerAnswer {
        full: 0,
        short: None,
    };
    let servers = PlaceNotes {
        answers: [no_server; 16],
        marks: [false; 16],
    };
    let tasks = PlaceNotes {
        answers: [Response::None; 64],
        marks: [false; 64],
    };
    Notes { servers, tasks }
}

// Notes the servers and their tasks, going down the servers. `n` stands beside `work`, and is no field of it: it counts the free ticks here, the held
// ones in `answer_tasks`, and a field for each would have to be told of in every contract on `Work`.
pub fn answer_all(table: Table, tick: u32, work: &mut Work<'_>) -> Notes
    requires { Obeyed table }
    ensures same { Same work.old work.new }
    ensures noted { AllNoted table tick result }
{
    let mut notes = no_notes();
    let mut n = put(work.free, 0, 0, table.span);
    for (i, server) in table.servers[..table.servers_n].iter().enumerate() {
        notes.servers.answers[i] = answer_server(*server, table.span, work.free_curve(n));
        let counts = hold_in_work(table, i, n, work);
        notes.servers.marks[i] = covers(work.held_curve(counts.taken), tick);
        answer_tasks(
            table,
            tick,
            i as u32 + 1,
            counts.taken,
            work,
            &mut notes.tasks,
        );
        n = counts.left;
    }
    notes
}

// The number of the first place that is marked, or 0 for none, as `first_of` of the contracts has it.
pub fn first_marked(marks: &[bool]) -> u32
    requires { length marks.now ≤ 64 }
    ensures { result ≡ first_of (λ i. get_or marks.now i false) (length marks.now) 0 }
{
    let at = marks.iter().position(|mark| *mark);
    at.map_or(0, |i| (i as u32) + 1)
}
