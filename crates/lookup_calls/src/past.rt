//! The images that a writer has published. Their list exists in the proofs alone.

use crate::shared::Shared;
use network_model::Prefix;
use receipts::{Element, Receipt};
use row_words::Marked;
use std::marker::Model;

/// An image that was published. No value of this type is made.
pub struct Edition {
    generation: u64,
    rows: [(Prefix, Marked); 0],
}

impl Model for Edition {
    ghost use Rattle.row_words.specs.Rows.{WordTable};

    ghost Value = { WordTable };

    ghost view = { λ e. record { generation = e.generation; rows = e.rows } };
}

impl Element<Edition> for Shared {
    ghost element = { λ image. image };
}

/// The word that counts the images of a list. The writer has it.
pub type Head = receipts::Head<Edition>;

/// What is known of a writer: the images that it had published at some moment. It takes no memory.
pub type Past = Receipt<Edition>;
