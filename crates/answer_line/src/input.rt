// What a reader gives, by lines.
ghost use Rattle.std.specs.Prelude.{◌+◌, ◌≤◌, vec_len, OnOk};

use std::io;
use std::io::BufRead;

// The longest line that is answered.
pub const LINE_BYTES: usize = 524287;

// The next line goes to `line` without its line feed, which the last one may lack; whether there is one. A line longer than
// LINE_BYTES is cut off one byte behind that. std's `read_until` would try an interrupted read again: here it is one that failed.
pub fn next_line(input: &mut impl BufRead, line: &mut Vec<u8>) -> io::Result<bool>
    ensures { OnOk result (vec_len line.new ≤ LINE_BYTES + 1) }
{
    line.clear();
    // The turns are counted, because nothing says that the input ends.
    for _ in 0..u64::MAX {
        let read = input.fill_buf()?;
        if read.is_empty() {
            break;
        }
        let feed = read.iter().position(|b| *b == b'\n');
        let end = feed.unwrap_or(read.len());
        let room = (LINE_BYTES + 1).saturating_sub(line.len());
        line.extend_from_slice(&read[..end.min(room)])?;
        if feed.is_some() {
            input.consume(end + 1);
            return Ok(true);
        }
        input.consume(end);
    }
    Ok(!line.is_empty())
}
