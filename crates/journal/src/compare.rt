//! Compares two texts line by line.

ghost use Rattle.std.specs.Prelude.{◌≡◌, IfSome, IfNone};
ghost use Rattle.texts.specs.Lines.{lines_of};
ghost use Rattle.journal.specs.Journal.{DifferAt};

use texts::next_line_of_bytes;

/// The number of the first line, from 1, that differs or that only one of the texts has; nothing
/// where the texts have the same lines.
pub fn first_difference(a: &[u8], b: &[u8]) -> Option<usize>
    ensures same { IfNone result (lines_of a.now ≡ lines_of b.now) }
    ensures differ { IfSome result (DifferAt (lines_of a.now) (lines_of b.now)) }
{
    let (mut rest, mut other) = (a, b);
    let mut same = 0;
    while let Some((first, after)) = next_line_of_bytes(rest) {
        match next_line_of_bytes(other) {
            Some((second, beyond)) if first == second => {
                rest = after;
                other = beyond;
                same += 1;
            }
            _ => return Some(same + 1),
        }
    }
    match next_line_of_bytes(other) {
        Some(_) => Some(same + 1),
        None => None,
    }
}
