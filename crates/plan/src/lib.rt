// A plan: rows of flows, their starts, and the gate list of each port.
#![tactic(auto)]

mod call;
mod figures;
mod fit;
mod flowspan;
mod gates;
mod judge;
mod offer;
mod placing;
mod plan;
mod promise;
mod row;
mod rows;
mod setup;
mod timing;

pub use call::{Answer, Call, Reply};
pub use plan::Plan;
pub use promise::{NoMemory, Performed, perform};
