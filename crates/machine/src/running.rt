// (3) and (4) What the holder and the runner lose.
ghost use Rattle.std.specs.Prelude.{◌≡◌, ◌≤◌, length};
ghost use Rattle.machine.specs.Machine.{one_less, spends, runs};
ghost use Rattle.machine.specs.Parts.{Has};

use crate::State;

// The holder loses one of budget.
pub fn spend(state: &mut State, holder: u32)
    requires { (holder ≤ 16) × Has state.old.budgets holder }
    ensures { state.new ≡ spends holder state.old }
{
    lose_one(&mut state.budgets, holder);
}

// The runner loses one of its waiting work.
pub fn run(state: &mut State, runner: u32)
    requires { (runner ≤ 64) × Has state.old.waiting runner }
    ensures { state.new ≡ runs runner state.old }
{
    lose_one(&mut state.waiting, runner);
}

// The entry of a number loses one; for 0, which is none as `one_less` of the contracts has it, none does.
fn lose_one(entries: &mut [u32], number: u32)
    requires { (number ≤ length entries.old) × Has entries.old number }
    ensures { entries.new ≡ one_less entries.old number }
{
    if 0 < number {
        entries[(number - 1) as usize] -= 1;
    }
}
