// Edges of the three record kinds and of sheets. The octets were worked out apart from the crate that is tested.
#![tactic(auto)]

#[cfg(test)]
mod edge;
#[cfg(test)]
mod flows;
#[cfg(test)]
mod gates;
#[cfg(test)]
mod ports;
#[cfg(test)]
mod sheets;
