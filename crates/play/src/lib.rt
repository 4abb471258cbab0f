//! What the program does, over any readers and writers.
//!
//! A program reads files, prints, starts threads and ends with a status. If its code opened these itself,
//! no test could hold what it reads and writes, and no contract could speak of it. So `main` opens files
//! and streams, and [`play`] does the rest with whatever it is handed:
//!
//! ```text
//!   words, scenario, journal  -->  play  -->  out, err, kept, told     and the exit status
//!
//!   check     reads a scenario, and says what it holds                          `src/checking.rt`
//!   run       opens its network, and does its script, command by command
//!   shell     opens its network, and does the commands of lines as they come
//!   replay    does the steps of a journal, and compares the reports
//!   time      runs its network in simulated time, with delays and changes       `timing`
//!   explain   prints the page of a number                                       `advice`
//! ```
//!
//! ```text
//! let by = Platform { rt: &rt, alloc, thresholds: THRESHOLDS, gate: &NoGate };
//! let mut streams = Streams { out: &mut out, err: &mut err };
//! let status = play(&by, &words, scenario, journal, &mut streams, true, &mut kept, &mut told);
//! ```
//!
//! `kept` gets the text of the journal of a run or a shell that ended with 0, if it is wanted. `told` is the fault for
//! which the program stopped, so that its caller can give advice. Who wants something else of a run gives a [`Keeper`]
//! to [`run_quietly`]: it gets the fabric at the end.
//!
//! A network is opened as a fabric, whose steps are kept, or, with `--no-journal`, as a simulation, which counts them
//! alone. On either the commands of the script are done, or those of the lines of a shell (`src/shell.rt`).
//! `src/opening.rt` opens the network, and closes it whatever comes of them. The commands themselves are in
//! `interpreter`. The steps of a journal (`src/replay.rt`) are a simulation's, too.
//!
//! What always holds: each command of the command line comes to an end that its definition names, with the
//! status of that end. Or it stops for a fault that holds of what was read, with the status of that fault
//! (`ProgramOutcome` in `specs/Outcomes.antt`). So a run ends with 0 only if its script was done to the end, and
//! each step that was done was lawful (`IsRunToEnd` in `specs/Works.antt`). `AreDone` in
//! `interpreter/specs/Commands.antt` says what each command does.
//!
//! What is tricky: a write that fails is lost, and changes nothing else, but that a shell ends at an answer which
//! nobody reads any more. What is printed is not in these clauses, but for the texts of single lines. With other
//! thresholds, and a gate that threads call, tests start threads in a small network.
//!
//! Where there was a choice:
//!
//! - A replay stops after a million steps as a fabric does (19), because no run writes a longer journal.
//! - `--journal` with a file that is read is 49 before the run begins. A journal that cannot be written
//!   at its end is 49 without a place: what the run printed stands, and the status is 2.
//! - A fault in a shell is told without a place. A shell has one control thread and one worker, and its
//!   words `help`, `say` and `quit` are 45 in a script, where they would do nothing.
//! - A journal that is full (19) is followed by a line that says how many steps were done. A replay that wants memory
//!   prints `step K refused: 20 NoMemory` if a step does, and otherwise `20 NoMemory`.
#![tactic(auto)]

mod checking;
mod keeping;
mod opening;
mod program;
mod replay;
mod shell;

pub use faults::FaultKind;
pub use interpreter::{Host, NO_THRESHOLDS, NoGate, THRESHOLDS, Thresholds, TurnGate};
pub use keeping::Keeper;
pub use plans::{Fault, Outcome, Plan, read_bytes, read_plan, read_text, refuse};
pub use program::{Platform, Streams, play, run_quietly};
