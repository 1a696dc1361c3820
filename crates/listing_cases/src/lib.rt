// Tests of the listing and of the gate lists on inputs worked out by hand.
#![tactic(auto)]

#[cfg(test)]
mod cuts;
#[cfg(test)]
mod damaged;
#[cfg(test)]
mod full;
#[cfg(test)]
mod gates;
#[cfg(test)]
mod inputs;
#[cfg(test)]
mod offers;
#[cfg(test)]
mod searches;
#[cfg(test)]
mod setups;
#[cfg(test)]
mod starts;
