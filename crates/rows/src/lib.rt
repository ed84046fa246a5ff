// Prices as rows of numbers, for every kind: nothing runs here. The definitions stand in specs/.
#![tactic(auto)]

ghost use Rattle.rows.specs.Laws.{TotalOrder, SumLaws};

// Any two prices compare, also rows of unequal length.
pub fn prices_are_totally_ordered() -> u8
    ensures { TotalOrder }
{
    0
}

// The laws of the sum hold of every kind whose rows have a number, and whose positions have each a largest.
pub fn sums_keep_the_laws() -> u8
    ensures { SumLaws }
{
    0
}
