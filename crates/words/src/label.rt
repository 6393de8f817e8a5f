//! Labels: short texts between the sites of a survey file.
ghost use Rattle.std.specs.Prelude.{◌≡◌};
ghost use Rattle.std.specs.List.{list_all};
ghost use Rattle.words.specs.Label.{LabelText, Printable, between};

use std::str::from_utf8;

/// The text of a label of `length` bytes that stands at the front of `rest`, the bytes after its
/// label word, if the label is well formed and complete. It is a part of the file.
pub fn label_text(rest: &[u8], length: u32) -> Option<&str>
    ensures { LabelText rest.now length result }
{
    if !(1..=12).contains(&length) {
        return None;
    }
    let end = length as usize;
    let padding = rest.get(end..end.next_multiple_of(4))?;
    if !all_between(padding, 0, 0) {
        return None;
    }
    printable(&rest[..end])
}

/// The bytes as text, if each is a printable ASCII character.
fn printable(bytes: &[u8]) -> Option<&str>
    ensures { Printable bytes.now result }
{
    if all_between(bytes, 32, 126) {
        from_utf8(bytes).ok()
    } else {
        None
    }
}

/// Whether every byte is from `low` to `high`.
fn all_between(bytes: &[u8], low: u8, high: u8) -> bool
    ensures { result ≡ list_all (between low high) bytes.now }
{
    bytes.iter().all(|byte| (low..=high).contains(byte))
}
