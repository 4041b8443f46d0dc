//! How long a file may become.
ghost use Rattle.std.specs.Prelude.{◌≤◌};

use crate::reading::read_text;
use std::fs;
use std::rt::Files;

// Where the system tells the limits that it sets this process.
const LIMITS: &str = "/proc/self/limits";

// What stands before the limit on the length of files.
const LENGTH: &str = "Max file size";

// The file that the standard output goes to, and what the system tells of that.
const OUTPUT: &str = "/proc/self/fd/1";

const OUTPUT_STATE: &str = "/proc/self/fdinfo/1";

// What stands before the place of the next byte, and before the flags.
const POSITION: &str = "pos:";

const FLAGS: &str = "flags:";

// The flag by which all that is written goes to the file's end.
const APPEND: u64 = 0o2000;

// The number that is the first word behind a label, on the first line that begins with it: none
// where there is no such line, or that word is no number to this radix.
pub(crate) fn find_number(lines: &str, label: &str, radix: u32) -> Option<u64>
    requires low { 2 ≤ radix }
    requires high { radix ≤ 36 }
{
    for line in lines.lines() {
        if let Some(rest) = line.strip_prefix(label) {
            let word = rest.split_whitespace().next()?;
            return u64::from_str_radix(word, radix).ok();
        }
    }
    None
}

// The same in the first lines of a file.
fn read_number<R: Files>(files: &R, name: &str, label: &str, radix: u32) -> Option<u64>
    requires low { 2 ≤ radix }
    requires high { radix ≤ 36 }
{
    let mut buffer = [0u8; 1024];
    find_number(read_text(files, name, &mut buffer)?, label, radix)
}

// How long this process may make a file, where that is limited and the system tells it. At a longer
// write the system would end the process.
pub(crate) fn longest_file<R: Files>(files: &R) -> u64 {
    read_number(files, LIMITS, LENGTH, 10).unwrap_or(u64::MAX)
}

// Where the next byte of the standard output goes, where it goes to a plain file.
pub(crate) fn output_place<R: Files>(files: &R) -> Option<u64> {
    let metadata = fs::metadata(files, OUTPUT).ok()?;
    if !metadata.is_file() {
        return None;
    }
    let end = metadata.len();
    let flags = read_number(files, OUTPUT_STATE, FLAGS, 8).unwrap_or(APPEND);
    if flags & APPEND != 0 {
        return Some(end);
    }
    Some(read_number(files, OUTPUT_STATE, POSITION, 10).unwrap_or(end))
}
