//! Commands of a script or a shell, done one by one on a network that runs.
//!
//! A run keeps its journal, so that it can be replayed, and so it takes memory by its steps and ends after a
//! million. Who lets a network run for days wants neither, but the same commands should do the same in both.
//! So the commands are done here alone, on any [`Live`], of which there are two:
//!
//! ```text
//!   Kept      a fabric: the steps are kept; routers settle on threads, workers look up
//!   Counted   a simulation: the steps are counted, up to 2^64 - 1; one thread does all
//! ```
//!
//! ```text
//! let interpreter = Interpreter { alloc, gate: &NoGate, directory: &directory, style };
//! do_command(&interpreter, &mut net, Command::Settle, &mut out, &mut ())?;
//! ```
//!
//! A step is `Fabric::step` or `Simulation::step`. `settle` is `settle` of `control`, which may start threads, or
//! `Simulation::settle`. A look-up or a trace asks the images in force.
//!
//! A script injects packets one by one, goes on meanwhile, and asks for the answers later. Workers cost
//! threads, so they are *at rest* until a job comes, and after a `drain` again; a `Dispatcher` sees to that, and
//! that none is left running at the end. The numbers of jobs go on after a `drain`, although the workers begin
//! anew. A job carries the list of publications that makes the image in force at its router then, so no older
//! image answers it (`IsNextJob` in `specs/Dispatching.antt`), and between two drains there is one reply to each
//! job and none to anything else. A [`Host`] is what a run needs of its machine: handles by which threads are
//! made and wait for each other.
//!
//! What always holds: a command is done as its definition says, or refused for a cause that holds, and then the
//! network is as before, or as it was brought to before the step that is refused (`IsDone` and `IsRefused` in
//! `specs/Commands.antt`). What a step, a settling or a copy is of either, it says itself (`Meaning` in
//! `specs/Nets.antt`), so commands are proved once for both. A look-up answers with the longest match of the rows that
//! the router published (`answer` of [`Live::lookup`]).
//!
//! What is tricky: with a seed both settle in the same order, so a script ends with the same lines. No clause says
//! so, and cases test it. A job of [`Counted`] is answered as soon as it is given, and told by the next `drain`.
//! That is lawful, because the answer of a worker may be that of any table from then on.
//!
//! Where there was a choice:
//!
//! - `settle` begins with router 0 each time, and `settle --seed N` draws anew from N, so it does the
//!   same wherever it stands.
//! - `save` keeps one state, the last, and `restore` leaves it saved. What was done before a `restore`
//!   and not yet counted is counted by the next `count`, and jobs keep their numbers and their answers. A
//!   run with a journal cannot go back (54), because a replay of its journal would end in another state.
#![tactic(auto)]

mod commands;
mod counted;
mod dispatcher;
mod host;
mod interpreter;
mod kept;
mod live;
mod putting;
mod threaded;

pub use control::{Crew, NO_THRESHOLDS, NoGate, Progress, THRESHOLDS, Thresholds, TurnGate};
pub use counted::Counted;
pub use host::Host;
pub use interpreter::{
    Interpreter, PrintStyle, do_command, do_commands, end_line, show_steps_done,
};
pub use kept::{Kept, Staffed};
pub use live::Live;
pub use threaded::{Staff, Threaded};
