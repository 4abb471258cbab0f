//! The formats of what the program prints.

ghost use Rattle.std.specs.Prelude.{◌≡◌, IfNone, IfSome};
ghost use Rattle.command_line.specs.Formats.{format_text};

/// How what a run or a replay prints is written.
#[derive(Clone, Copy, Debug)]
pub enum Format {
    /// Lines for people.
    Text,
    /// Each line an object of JSON.
    Json,
}

impl Format {
    /// The format of this name.
    pub fn of(name: &str) -> Option<Format>
        ensures some { IfSome result (λ f. name.now ≡ format_text f) }
        ensures none { IfNone result ((f : Format) → name.now ≡ format_text f → ⊥) }
    {
        match name {
            "text" => Some(Format::Text),
            "json" => Some(Format::Json),
            _ => None,
        }
    }
}
