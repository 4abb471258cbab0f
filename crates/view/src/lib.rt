//! What the program `dualnet-view` does, over any readers and writers: it writes the states of a run, as
//! lines of JSON or in a page.
//!
//! A run is a list of steps, and a picture needs the network after each of them. The steps come from a
//! journal, from a run in simulated time, or from a run of the scenario's script. In each case the picture
//! must be of lawful steps of that scenario's network, and of nothing else.
//!
//! ```text
//!   scenario --> its script is done --> the fabric --> network, steps --.
//!                                                                        +--> states --> lines, or a page
//!   scenario --> its network, a journal ------------> network, steps --|
//!   scenario, times --> its network in simulated time --> steps, moments --'
//! ```
//!
//! ```text
//! let status = show(&rt, alloc, &words, scenario, other, &mut out, &mut err);
//! ```
//!
//! [`show`] reads the scenario. Without a journal `play` does its script. At the end of the run it hands the
//! fabric over, whose steps are lawful, and what the script prints is lost. A journal's steps are first done
//! once, to see how many of them are lawful. With a document of times `timing` runs the network, and keeps
//! each step with its moment. `run_states` writes the states.
//!
//! A page is one file that needs no other, so it opens anywhere. The states stand in it as lines of JSON, between
//! fixed texts:
//!
//! ```text
//!   HEAD  STYLE  BODY        the page up to the states        `src/markup.rt`, `src/style.rt`
//!   {"kind":"opening",..}    the states
//!   {"kind":"state",..}
//!   FOOT  SCRIPT  END        the script that reads them       `src/code.rt`
//! ```
//!
//! The texts are read as they stand, because no other tool makes them or packs them.
//!
//! What always holds (`IsShown` in `specs/Shown.antt`): status 0 is answered only if the bytes are those of a
//! scenario, and all steps are lawful. Then their states were written, and lines have the state after each step. If a
//! step is refused, the states before it are written, a line on `err` tells of it, and the status is 2.
//!
//! What is tricky: a page has at most 20,000,000 bytes of states. If the states after all steps are more, it
//! has those after every second step, or every fourth, and so on. So the states are written into a list that
//! refuses to grow beyond (`src/limited.rt`), and written anew if it refuses. If even few states are too
//! many, the page has the first and the last.
//!
//! The states stand in HTML without an escape, so no `<` may be among them. There is none, because names,
//! prefixes, words and numbers have none. What the script does with the states has no contract. `trials/view`
//! opens pages in a browser, and compares what they show with the program's output and with a plain model.
//!
//! Where there was a choice:
//!
//! - A page has the whole states, and not only those of one prefix, so that you choose the prefix as you
//!   read. No position of a router is written: the page lays the network out, the same way each time.
//! - A try for a page ends when it has written 20 MB, so all tries together take about twice as long as all states as
//!   lines. To write them side by side in one pass took longer: 18.5 seconds in place of 10.4 for 265,866 steps.
#![tactic(auto)]

mod code;
mod limited;
mod markup;
mod page;
mod style;
mod view;

pub use view::show;
