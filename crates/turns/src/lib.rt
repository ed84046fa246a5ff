// The turns of a planner: what each one is, and what holds over every list of them. Nothing runs here; each function
// states theorems about the definitions in specs/.
#![tactic(auto)]

ghost use Rattle.std.specs.Prelude.{◌≡◌};
ghost use Rattle.chart.specs.Lawful.{Lawful};
ghost use Rattle.turns.specs.History.{Reachable};
ghost use Rattle.turns.specs.State.{State, idle};
ghost use Rattle.turns.specs.Turned.{Turned};
ghost use Rattle.turns.specs.Turns.{Answer, Turn};
ghost use Rattle.turns.specs.Promises.{Promises};
ghost use Rattle.turns.specs.Telling.{ToldApart};
ghost use Rattle.turns.specs.Dependence.{SameAnswer};

// From every state that a planner can come to, repairs and traces keep the promises.
pub fn every_reachable_state_keeps_the_promises() -> u8
    ensures { (s : State) → Reachable s → Promises s }
{
    0
}

// How a caller carries its own list of turns from call to call: an idle planner over a lawful chart is in its first hour, and
// after each turn on the bench at hand, refused or not, the state is again one that a planner can come to.
pub fn a_caller_carries_its_turns() -> u8
    ensures first { (s : State) → s.stage ≡ idle → Lawful s.chart → Reachable s }
    ensures next { (s : State) (u : Turn) (a : Answer) (t : State) → Reachable s → Turned s u a t → Reachable t }
{
    0
}

// The promises say something: two planners can come to states over charts that differ in one price, where the repairs answer
// different distances, and one trace shows a route that the other refuses by 12.
pub fn the_promises_tell_charts_apart() -> u8
    ensures { ToldApart }
{
    0
}

// On benches that are up to date an answer depends on the meaning of the chart, the planner's number and stage, what is asked,
// the bench's number and length, and of what the bench holds on the standings of the places alone.
pub fn answers_depend_on_what_is_asked() -> u8
    ensures { SameAnswer }
{
    0
}
