//! Distances, link costs and the three kinds of routing message.
//!
//! DUAL compares distances, and the proofs want them to grow along each link. Machine numbers wrap around,
//! and a cost of 0 would let a loop cost nothing, so the numbers here are types of their own:
//!
//! - A [`Cost`] is a whole number 1 to 65535, for one direction of a link, so both ends may differ.
//! - A [`Distance`] is a number of 32 bits, of which the greatest, 4294967295, is *infinity*: no way is
//!   known.
//! - `plus` adds a cost to a distance, and a sum that reaches infinity is infinity, and never wraps.
//! - A [`Kind`] is what a message is: news (`Update`), a question (`Query`) or its answer (`Reply`), each
//!   with the sender's distance.
//!
//! ```text
//! let link = Cost::new(10)?;                       // Cost::new(0) is refused: 5 BadCost
//! let far = Distance::ZERO.plus(link);             // 10
//! let none = Distance::new(4294967290).plus(link); // infinity, which is displayed as `inf`
//! ```
//!
//! What always holds: a `Cost` is a cost by its type (`IsCost` in `specs/Distance.antt`), so nobody tests it
//! again. A distance plus a cost is greater than the distance, unless that was infinity, on which laws above
//! rest.
//!
//! The source is the network model of J. J. Garcia-Luna-Aceves, *Loop-Free Routing Using Diffusing
//! Computations*, 1993, in which links have positive costs in each direction, and a path has the sum of
//! its costs. Whole numbers and an infinity are this project's choice.
//!
//! What is tricky: infinity is a value like others in comparisons, where it is greater than each distance
//! that a way can have.
#![tactic(auto)]

mod cost;
mod distance;
mod kind;

pub use cost::{BadCost, Cost};
pub use distance::Distance;
pub use kind::Kind;
