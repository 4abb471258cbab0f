//! Images that one writer publishes, and readers look addresses up in with no lock and no wait.
//!
//! ```text
//!    readers ->  [ copy A: image, Told ]   shown: readers enter here, with no lock
//!    writer  ->  [ copy B: image, Told ]   hidden: lacks the patch of the last publication at most
//!                show: the copies change places; the writer changes a copy once no reader is inside
//! ```
//!
//! [`ImageWriter::publish`] first gives the hidden copy the patch that it lacks, then the new one, shows
//! it, and lets the next call wait for the readers that are still inside the other ([`left_right`] is the
//! two copies). A reader that enters finds either copy whole; it waits for nobody, and takes no memory.
//! Where memory is refused the patch *waits*: the next publication has to name all that it named, and
//! sets it too.
//!
//! Who saw what is said by *lists*. A writer's list has every publication that it made; it exists in the
//! proofs alone ([`receipts`]), and a [`Told`] is a token that its holder knows of a beginning of it.
//! Each copy has the `Told` of the list whose image it is; a reader keeps the longest that it met, so that
//! what it sees never gets older; and a [`Job`] has one, by which a worker answers from an image no older
//! than the asker knew of ([`ImageReader::learn`]).
//!
//! What always holds: the image of a copy is that of its list (`Shown` in `src/rule.rt`), two lists of one
//! writer begin one another, and a view of a reader begins with its earlier ones. The writers, readers and
//! tokens of one fabric have one type parameter, its name ([`FabricName`]), so those of two cannot be
//! mixed.
//!
//! A writer may leave with a patch ([`Ticket`]), and is known again by what stayed ([`Stub`]).
//!
//! Where there was a choice:
//!
//! - A publication carries the generation above the writer's, without a limit, because that of a million
//!   is the journal's. Its rows may come in any order and name a prefix twice, and then the later row
//!   stands.
//! - A ticket may publish again after it was refused. Its patch may then itself be pending, and stand in
//!   the list once more than it is published. So of what was pending a ticket says only that its patch
//!   names it, which is all that the image depends on.
//! - A stub's patch tells which list the writer had, without a comparison of lists: a list has as many
//!   publications as its generation says, and lists of one writer that have as many are one
//!   (`Told::meet`).
//! - A pending patch is kept for the list alone, and no image takes it in, because the next patch names
//!   all its prefixes.
#![tactic(auto)]

mod book;
mod edition;
mod job;
mod known;
mod name;
mod press;
mod reader;
mod rule;
mod ticket;
mod told;
mod writer;
mod writers;

pub use image_patch::Patch;
pub use job::Job;
pub use name::{FabricName, Unnamed};
pub use network_model::{Answer, Entry, NoMemory, Prefix};
pub use reader::{ImageReader, NoImage, ReadGate};
pub use ticket::{Stub, Ticket, copy_of};
pub use told::Told;
pub use writer::{ImageWriter, OpenFault, open};
pub use writers::{close_all, open_all};
