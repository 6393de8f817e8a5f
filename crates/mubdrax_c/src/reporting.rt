ghost use Rattle.mubdrax_c.specs.Texts.{ReportedFor, Wrote};

use report::error::ReportError;
use report::report::report_on;
use std::alloc::Global;

/// What was written of a report, and how long its text is.
///
/// C has no `Result`, so the numbers of this struct are its interface.
#[repr(C)]
#[derive(Clone, Copy)]
pub struct TextAnswer {
    /// 0: the statement; 1: the line of the refusal; 2: the text is longer than the room for it, and nothing is
    /// written; 3: there was not enough memory, and nothing is written.
    pub status: u32,
    pub length: usize,
}

/// The text does not fit.
const NO_ROOM: u32 = 2;

/// The heap refused.
const NO_MEMORY: u32 = 3;

/// Writes the bytes to the front of the room, if they fit.
// A flag, since it is the status 0 or 1 that C reads.
fn write_text(bytes: &[u8], refused: bool, room: &mut [u8]) -> TextAnswer
    ensures { Wrote bytes.now refused room.old room.new result }
{
    let length = bytes.len();
    if length > room.len() {
        return TextAnswer {
            status: NO_ROOM,
            length,
        };
    }
    room[..length].copy_from_slice(bytes);
    TextAnswer {
        status: refused as u32,
        length,
    }
}

/// Writes what is printed of a survey file: the statement of its survey, or the line that tells why it is refused.
#[unsafe(no_mangle)]
pub extern "C" fn mubdrax_report(heap: Global, file: &[u8], room: &mut [u8]) -> TextAnswer
    ensures { ReportedFor file.now room.old room.new result }
{
    match report_on(heap, file) {
        Ok(text) => write_text(text.as_bytes(), false, room),
        Err(ReportError::Refused(line)) => write_text(line.as_bytes(), true, room),
        Err(ReportError::OutOfMemory(_)) => TextAnswer {
            status: NO_MEMORY,
            length: 0,
        },
    }
}
