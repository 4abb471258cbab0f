//! What every event does to the machine of one router for one prefix: the laws on which a network of machines
//! rests.
//!
//! The definition of a machine has many cases (`network_model/specs/Machine.antt`), and an argument about a
//! network would have to go through all of them, at both ends of each link. So these laws say what such an
//! argument needs, and hide the cases. The lemmas of `loop_freedom` take them as one premise (`MachineLaws`
//! in `specs/Laws.antt`).
//!
//! RD is the reported distance, and FD the feasible distance. A machine is *active* during a computation,
//! else *passive*, and it *meets* an event (`Meets`) if the event's port is there, up or down as it should
//! be, and its numbers are in range.
//!
//! What always holds (`IsSound`): FD is at most RD, and less while the machine is active. Whoever is awaited
//! is up, and a reply is owed to the successor alone. A passive machine is at the least distance, by its
//! attachment or by a neighbour that reported less than FD.
//!
//! The law, clause by clause: a sound machine stays sound, and what it sends is its RD. While a link is up,
//! FD rises only if nobody is awaited any more, and at most to the distance of the computation. A neighbour
//! that is the successor reported less than FD, or is kept by an active machine. At each port what is awaited
//! and what is owed is counted exactly. If RD changes, every neighbour that is up is told.
//!
//! Why it is true: an event has one of five outcomes (`Outcome` in `proofs/Outcomes.antt`): a neighbour came
//! up; the machine waits on; it is passive; it asks; or it has nobody to ask. Each law is proved once for
//! each of these. Nothing but the definition is used, and no law speaks of two machines.
//!
//! The hard step is the end of a computation, because while a link is up, FD may rise then, and only then.
//! That it does not rise while a neighbour has yet to answer is what the freedom from loops hangs on
//! (`rises_at_completion`).
//!
//! ```text
//!   event at a machine with two ports      RD  FD              sends
//!   port 0 reports 0, at cost 1             1   1   passive    an update of 1 to both
//!   port 1 reports 2, at cost 1             1   1   passive    nothing
//!   port 0 costs 10 now                    10   1   active     a query of 10 to both
//!   port 0 replies 0                       10   1   active     nothing, because port 1 is awaited
//! ```
//!
//! At the third event port 1 is nearest, but it reported 2, which is not less than FD, so the machine
//! asks.
//!
//! The source is J. J. Garcia-Luna-Aceves, *Loop-Free Routing Using Diffusing Computations*, 1993.
//!
//! The laws are said of the definitions, in crates of their own, so a change of code proves none of them
//! again. For example, a table that stores its rows in another way leaves all of them as they are.
#![tactic(auto)]

ghost use Rattle.machine_laws.specs.Laws as laws;

/// A machine opens sound. A sound machine stays sound, keeps the records of its neighbours and of its
/// attachment, and sends its distance alone; its feasible distance rises only where nobody is awaited;
/// a neighbour that it chooses reported less than the feasible distance; queries and replies are counted exactly, and a reply to the successor
/// waits for completion; whoever is up is told of a new distance.
pub fn machine_laws()
    ensures sends_distance { laws.SendsDistance }
    ensures rises_at_completion { laws.RisesAtCompletion }
    ensures keeps_or_chooses { laws.KeepsOrChooses }
    ensures counts_queries { laws.CountsQueries }
    ensures counts_replies { laws.CountsReplies }
    ensures goes_on_or_asks { laws.GoesOnOrAsks }
    ensures keeps_debt { laws.KeepsDebt }
    ensures tells_all { laws.TellsAll }
    ensures keeps_records { laws.KeepsRecords }
    ensures keeps_attachment { laws.KeepsAttachment }
    ensures opens_sound { laws.OpensSound }
    ensures stays_sound { laws.StaysSound }
{}
