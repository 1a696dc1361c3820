// Tests of the plan on worked cases.
#![tactic(auto)]

#[cfg(test)]
mod case;
#[cfg(test)]
mod edges;
#[cfg(test)]
mod odd;
#[cfg(test)]
mod records;
