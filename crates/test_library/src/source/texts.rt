use crate::source::copied::is_copied;
use deno_graph_source::text::{JsString, Position, SourceTextInfo};
use deno_graph_source::values::TryClone;
use std::process::Abort;
use std::rc::RcStr;

/// Asserts that the boundary has this position, and is found by the position.
fn assert_position(rt: &impl Abort, info: &SourceTextInfo, pos: usize, expected: Position) {
    assert!(rt; info.text().is_char_boundary(pos));
    assert_eq!(rt; Position::from_source_pos(pos, info), expected, "{pos}");
    assert_eq!(rt; expected.as_source_pos(info), Some(pos));
}

/// Counts lines and characters along the text, and compares the position of each boundary.
fn assert_positions_along(rt: &impl Abort, info: &SourceTextInfo) {
    let mut expected = Position::zeroed();
    let mut pos = 0usize;
    for c in info.text().chars() {
        assert_position(rt, info, pos, expected);
        expected = if c == '\n' {
            Position {
                line: expected.line.wrapping_add(1),
                character: 0,
            }
        } else {
            Position {
                line: expected.line,
                character: expected.character.wrapping_add(1),
            }
        };
        pos = pos.wrapping_add(c.len_utf8());
    }
    assert_position(rt, info, pos, expected);
}

#[test]
fn positions_are_right_in_long_texts(rt: HostRuntime) {
    for (part, count) in [
        ("ab", 700),
        ("aé€😀", 200),
        ("é\n\nabcdefghijklmnopqrstuvwxyz€\n", 60),
    ] {
        let info = repeated(&rt, part, count);
        assert_positions_along(&rt, &info);
        let copy = info.try_clone(rt.alloc()).expect(&rt, "memory");
        assert!(rt; copy == info);
        assert!(rt; RcStr::ptr_eq(copy.rc_text(), info.rc_text()));
    }
}

fn repeated(rt: &(impl AllocGlobal + Abort), part: &str, count: usize) -> SourceTextInfo {
    let text = part.repeat(rt.alloc(), count).expect(rt, "memory");
    let text = RcStr::from_str(rt.alloc(), text.as_str()).expect(rt, "memory");
    SourceTextInfo::new(rt.alloc(), text).expect(rt, "memory")
}

#[test]
fn strings_are_equal_by_their_units(rt: HostRuntime) {
    assert!(rt; has_units_of(&rt, &[0xD83D, 0xDE00], "\u{1f600}"));
    assert!(rt; !has_units_of(&rt, &[0xD83D], "\u{fffd}"));
    assert!(rt; is_copied(&rt, &of_units(&rt, &[0xD83D])));
}

fn of_units(rt: &(impl AllocGlobal + Abort), units: &[u16]) -> JsString {
    JsString::from_units(rt.alloc(), units).expect(rt, "memory")
}

/// Returns whether the string of these units is equal to the string of the text.
fn has_units_of(rt: &(impl AllocGlobal + Abort), units: &[u16], text: &str) -> bool {
    of_units(rt, units) == JsString::from_str(rt.alloc(), text).expect(rt, "memory")
}
