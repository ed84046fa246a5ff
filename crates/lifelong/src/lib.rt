// Lifelong Planning A*: what a repair is, and why it is right whatever came before. Nothing runs here; each function
// states theorems about the definitions in specs/.
#![tactic(auto)]

ghost use Rattle.lifelong.specs.Bounds.{ClosedWithin, KeysOpen, PricedWithin, RunWithin, StepWithin, SumsOpen};
ghost use Rattle.lifelong.specs.Examples.{AllHold, PremisesMet, Refused, table};
ghost use Rattle.lifelong.specs.Run.{RunsJoin};
ghost use Rattle.lifelong.specs.Shown.{NeverMisses, NoneWithoutRoute, OneTrace, OneTrueTrace, ShowsCheapest};
ghost use Rattle.lifelong.specs.Theorems.{AtMostTwice, ClosedWithoutChain, ClosedWithoutRoute, DefinitionsAgree, EndsSettled, FewSteps, LaterKeys, LoweredTrue, NeverTwice, NextKey, OneDistance, PastUnread, SettledTrue, SomeDistance, TrueKept, ZeroAtStart};
ghost use Rattle.lifelong.specs.Updates.{ClosedAhead, PriceReaches, StandingReaches};

// What is computed is what the relations say, of any chart and any standings.
pub fn the_step_is_as_the_relations_say() -> u8
    ensures { DefinitionsAgree }
{
    0
}

// A run of a + b steps is a run of a, and then of b.
pub fn runs_join() -> u8
    ensures { RunsJoin }
{
    0
}

// True distances: each place has one and no more; zero at the start; closed exactly when no chain leads there.
pub fn every_place_has_one_true_distance() -> u8
    ensures found { SomeDistance }
    ensures one { OneDistance }
    ensures start { ZeroAtStart }
    ensures closed { ClosedWithoutChain }
{
    0
}

// A new standing reaches only the lookaheads of places to which a link leads from there, a new price only that of the
// link's to place; over closed standings every lookahead but the start's is closed.
pub fn changes_reach_the_next_places_only() -> u8
    ensures standing { StandingReaches }
    ensures price { PriceReaches }
    ensures closed { ClosedAhead }
{
    0
}

// The key of a later step is not below that of an earlier one.
pub fn keys_never_fall() -> u8
    ensures next { NextKey }
    ensures later { LaterKeys }
{
    0
}

// No place is lowered twice or raised twice, so none is expanded more than twice, two steps for each place suffice,
// and a repair ends settled.
pub fn repairs_end_settled() -> u8
    ensures never_twice { NeverTwice }
    ensures at_most_twice { AtMostTwice }
    ensures few { FewSteps }
    ensures settled { EndsSettled }
{
    0
}

// A place that is lowered gets its true distance. When settled the goal has its own, closed exactly when no route
// stands.
pub fn standings_come_true() -> u8
    ensures lowered { LoweredTrue }
    ensures settled { SettledTrue }
    ensures closed { ClosedWithoutRoute }
{
    0
}

// A place whose standing is its true distance is not expanded, and keeps it.
pub fn true_standings_are_kept() -> u8
    ensures { TrueKept }
{
    0
}

// When settled, the trace shows the cheapest route, or none exactly when no route stands. The chart alone fixes it.
pub fn the_trace_is_the_cheapest_route() -> u8
    ensures shows { ShowsCheapest }
    ensures none { NoneWithoutRoute }
    ensures never_misses { NeverMisses }
    ensures one { OneTrueTrace }
{
    0
}

// The bounds hold when all standings are closed, whatever a link's price, and after every step. Under them no sum
// reaches the ceiling.
pub fn sums_stay_below_the_ceiling() -> u8
    ensures closed { ClosedWithin }
    ensures priced { PricedWithin }
    ensures step { StepWithin }
    ensures run { RunWithin }
    ensures sums { SumsOpen }
    ensures keys { KeysOpen }
{
    0
}

// Two settled standings over one chart show one route, whatever came before.
pub fn equal_charts_equal_routes() -> u8
    ensures { OneTrace }
{
    0
}

// What lies past the places in the list of standings is never read.
pub fn standings_past_the_places_are_not_read() -> u8
    ensures { PastUnread }
{
    0
}

// The table of worked examples, computed from the definitions.
pub fn worked_examples() -> u8
    ensures table { AllHold table }
    ensures refused { Refused }
{
    0
}

// One chart meets every premise of the theorems above.
pub fn a_chart_meets_the_laws() -> u8
    ensures { PremisesMet }
{
    0
}
