//! A place in a survey file.
ghost use Rattle.std.specs.Prelude.{◌/◌, ◌≤◌, length};

/// How many bytes a survey file has at most: 8,192 words.
pub const LONGEST: usize = 32_768;

/// How many bytes of its input a program reads: one more than the longest file has, since what is longer is refused
/// for its length all the same.
pub const ENOUGH: u64 = LONGEST as u64 + 1;

/// A reader of a survey file: the file, and how much of it was read.
///
/// It is no iterator: the grading comes with each call, since a survey that owns one lends it for a
/// call, and a fault that is found once is found again.
#[derive(Clone, Copy)]
pub struct Reader<'a> {
    bytes: &'a [u8],
    /// The number of the next word.
    word: usize,
    /// The complete sites so far.
    sites: usize,
    /// Whether the end word was read. A flag, since the other two count on to the file's last word.
    ended: bool,
    ghost within: { (word ≤ length bytes.now / 4) × (sites ≤ word) },
}

pub mod next;
