//! What a router has for one prefix.

ghost use Rattle.std.specs.Prelude.{◌≡◌};
ghost use Rattle.route_table.specs.Rows.{differs};

use network_model::Entry;

/// The entry that the router chose, and the one that is in force: None until the prefix is
/// published for the first time.
#[derive(Clone, Copy)]
pub struct Row {
    pub control: Entry,
    pub published: Option<Entry>,
}

impl Row {
    /// Whether the entry that was chosen is not the one in force.
    pub fn differs(self) -> bool
        ensures { result ≡ differs self }
    {
        self.published != Some(self.control)
    }
}
