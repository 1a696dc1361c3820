// What a plan answers to an offer, and what is promised of the flows that it holds.
#![tactic(auto)]

ghost use Rattle.planning.specs.Laws.{OverlapDecided, FitDecided, EarliestFound, StatesDecided, GatesListed, GatesFew};
ghost use Rattle.planning.specs.Promise.{Promised, OffersKeep, OffersStayFew};

// What the tests that compute mean: overlap, fit, the earliest start, the states of gates, and gate lists with their length.
pub fn tests_decide()
    ensures overlap { OverlapDecided }
    ensures fit { FitDecided }
    ensures earliest { EarliestFound }
    ensures states { StatesDecided }
    ensures lists { GatesListed }
    ensures few { GatesFew }
{}

// Of flows that a plan can hold: no scheduled frame waits in any run under their gate lists, and an offer is refused for want of a start exactly when one would.
pub fn promised()
    ensures { Promised }
{}

// With the flow of a done offer added, the flows are again such flows; and at most 64 with at most 16 periods in the cycle each, if they were.
pub fn offers_keep()
    ensures keep { OffersKeep }
    ensures few { OffersStayFew }
{}
