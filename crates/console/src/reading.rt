// Lines of bytes, whatever the bytes are, up to a greatest length.
use script::problem::Problem;
use std::io;
use std::io::{BufRead, ErrorKind};

// The longest line that is kept.
const LONGEST: usize = 16_777_216;

// The bytes of a line, or the problem of one that is too long to be kept.
type Kept<'a> = Result<&'a [u8], Problem>;

// Adds bytes to a line, if it can be kept with them.
fn keep(line: &mut Vec<u8>, bytes: &[u8]) -> Result<(), Problem> {
    if LONGEST.saturating_sub(line.len()) < bytes.len() {
        return Err(Problem::LongLine);
    }
    line.extend_from_slice(bytes).map_err(|_| Problem::LongLine)
}

// Reads the next line, without its line break: none at the end of the input. One that is not kept is read to its end.
// Stays a loop over what the reader holds: `read_until` keeps the line break too, and an error of its own for want of memory looks like one of the input.
pub fn read_line<'a, B: BufRead>(
    reader: &mut B,
    line: &'a mut Vec<u8>,
) -> io::Result<Option<Kept<'a>>> {
    line.clear();
    let mut kept = Ok(());
    let mut is_some = false;
    for _ in 0..u64::MAX {
        let held = match reader.fill_buf() {
            Ok(held) => held,
            Err(error) if error.kind() == ErrorKind::Interrupted => continue,
            Err(error) => return Err(error),
        };
        if held.is_empty() {
            break;
        }
        is_some = true;
        let end = held.iter().position(|byte| *byte == b'\n');
        let part = &held[..end.unwrap_or(held.len())];
        if kept.is_ok() {
            kept = keep(line, part);
        }
        let used = end.map_or(held.len(), |end| end + 1);
        reader.consume(used);
        if end.is_some() {
            break;
        }
    }
    if !is_some {
        return Ok(None);
    }
    Ok(Some(kept.map(|()| line.as_slice())))
}
