// Layers over a chart: what each makes of the chart below it, and that the laws hold again. Nothing runs here; each
// function states theorems about the definitions in specs/.
#![tactic(auto)]

ghost use Rattle.layer_meaning.specs.Theorems.{GuardHandsOn, GuardInto, GuardLawful, GuardLinks, GuardOut, GuardRefuses, ReturnHandsOn, ReturnInto, ReturnLawful, ReturnLinks, ReturnOut, UpperHolds};

// A guard or a return over a lawful chart is a lawful chart, and so is any pile of them.
pub fn layers_keep_the_laws() -> u8
    ensures guard { GuardLawful }
    ensures back { ReturnLawful }
{
    0
}

// What a guard answers about links.
pub fn a_guard_answers_from_below() -> u8
    ensures links { GuardLinks }
    ensures into { GuardInto }
    ensures out { GuardOut }
{
    0
}

// What a return answers about links.
pub fn a_return_answers_from_below() -> u8
    ensures links { ReturnLinks }
    ensures into { ReturnInto }
    ensures out { ReturnOut }
{
    0
}

// A held link is refused at the height of the guard that holds it, the upper one of two, through all layers above;
// any other price is set, or refused, as it is below.
pub fn prices_are_set_through_layers() -> u8
    ensures refused { GuardRefuses }
    ensures guard { GuardHandsOn }
    ensures back { ReturnHandsOn }
    ensures upper { UpperHolds }
{
    0
}
