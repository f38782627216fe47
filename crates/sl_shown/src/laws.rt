//! What the bars of a picture show of the world.

ghost use Rattle.sl_shown.specs.ShownHoldings.{BarsAreHoldings, BarsAreShared};

/// Behind each line the open bars of holdings are the world's holdings.
pub fn bars_are_holdings()
    ensures { BarsAreHoldings }
{}

/// Two open bars of one resource on two machines are both of shared holdings.
pub fn bars_are_shared()
    ensures { BarsAreShared }
{}
