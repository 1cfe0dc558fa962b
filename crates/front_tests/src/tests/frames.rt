//! Tests of frames and positions.

use star_checks::holds;
use star_frames::frame::{read_frame, write_frame};
use star_frames::place::{Places, Position, Units};

#[test]
fn frame_is_read_back(rt: HostRuntime) {
    let alloc = rt.alloc();
    let mut sent = Vec::new(alloc);
    holds!(&rt; write_frame(alloc, &mut sent, b"{}").is_ok());
    let mut left = sent.as_slice();
    let read = read_frame(alloc, &mut left).expect(&rt, "not read");
    let content = read.expect(&rt, "no frame");
    holds!(&rt; content.as_slice() == b"{}".as_slice());
    holds!(&rt; left.is_empty());
}

#[test]
fn offset_comes_back(rt: HostRuntime) {
    let text = "a\r\n\u{1f600}b";
    let places = Places::new(rt.alloc(), text, Units::Utf16).expect(&rt, "no memory");
    let position = places.position(text, 7);
    holds!(&rt; position == Position { line: 1, column: 2 });
    holds!(&rt; places.offset(text, position) == 7);
}
