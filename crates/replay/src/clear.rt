// Copies of a recording, also with the ranges of its recorded clear list zeroed: what the blanker is to leave.
use crate::recording::Recording;

// Bytes of the longest recording that is copied, and where a clear list's ranges begin.
pub const COPY: usize = 32768;

const RANGES: usize = 24;

// Zeros in all ranges of a clear list; false where they do not lie in the copy.
fn zero_ranges(copy: &mut [u8], clear: &[u8]) -> bool {
    let Some(ranges) = clear.get(RANGES..) else {
        return false;
    };
    let (ends, rest) = ranges.as_chunks::<8>();
    for pair in ends.chunks(2) {
        let &[start, end] = pair else {
            return false;
        };
        let start = u64::from_le_bytes(start) as usize;
        let end = u64::from_le_bytes(end) as usize;
        match copy.get_mut(start..end) {
            Some(range) => range.fill(0),
            None => return false,
        }
    }
    rest.is_empty()
}

// Makes the copy the recording with the ranges of its recorded clear list zeroed; false where no clear list was recorded.
pub(crate) fn zero_clear(copy: &mut [u8], recording: &Recording) -> bool {
    if copy.len() != recording.file.len() {
        return false;
    }
    copy.copy_from_slice(recording.file);
    zero_ranges(copy, recording.clear)
}

// Whether `left` is the recording with the ranges of its recorded clear list zeroed.
pub(crate) fn is_blanked(left: &[u8], recording: &Recording) -> bool {
    let n = recording.file.len();
    if COPY < n {
        return false;
    }
    let mut copy = [0u8; COPY];
    let copy = &mut copy[..n];
    zero_clear(copy, recording) && *left == *copy
}
