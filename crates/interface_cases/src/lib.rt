// Tests of the interface on the worked case.
#![tactic(auto)]

#[cfg(test)]
mod case;
