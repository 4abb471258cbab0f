//! What contracts see of patches, of publications and of published lists. No value of these types is made.

use network_model::{Entry, Prefix};
use std::marker::Model;

/// The rows that a patch sets, and the generation that it makes.
pub struct Change {
    generation: u64,
    rows: [(Prefix, Entry); 0],
}

impl Model for Change {
    ghost use Rattle.network_model.specs.Publication.{Patch};

    ghost Value = { Patch };

    ghost view = { λ c. record { generation = c.generation; rows = c.rows } };
}

/// The patches of one publication: those that waited, and then the one that was handed in.
pub struct Bundle {
    patches: [Change; 0],
}

impl Model for Bundle {
    ghost use Rattle.std.specs.Prelude.{List};
    ghost use Rattle.network_model.specs.Publication.{Patch};

    ghost Value = { List Patch };

    ghost view = { λ b. b.patches };
}

/// The list that a router's writer had after some of its publications.
pub struct Known {
    pub router: u16,
    pub publications: [Bundle; 0],
}
