//! The laws of the definitions. Each is proved of all values, and no call does anything.
ghost use Rattle.slate_stock.specs.Laws.{BalancesAddUp, EachIsAStep, NoneIsAboveTheIssued};

/// Of audited journals. Where their transcripts are vouched, the balances of each asset add up to what was issued of it, at each
/// sequence, so that none is above it, and each commit is its order's step on the state just before it.
pub fn audited()
    ensures balances { BalancesAddUp }
    ensures none_is_above { NoneIsAboveTheIssued }
    ensures steps { EachIsAStep }
{}
