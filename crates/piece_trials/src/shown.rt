//! Tests of streams that are shown in pieces of one, seven and all bytes: nine rows in two batches,
//! whole and cut, and bytes that do not begin with a schema.
use crate::pieces::NINE;
use std::alloc::Global;
use std::process::Abort;
use std::test::Fail;
use stream_pieces::Stand;
use stream_text::Showing;

const EIGHT: &str = "schema \"key\":i64 \"v\":utf8?\n| 1 \"x\"\n| 2 \"x\"\n| 3 \"x\"\n| 4 \"x\"\n\
    | 5 \"x\"\n| 6 \"x\"\n| 7 \"x\"\n| 8 \"x\"\n";

/// Bytes, the pieces of text that they show, and whether the last of these is shown before the end
/// of the input.
#[derive(Clone, Copy)]
struct Case {
    bytes: &'static [u8],
    text: &'static [&'static str],
    decided: bool,
}

/// The text of bytes in pieces of this size, and whether its last line came before their end.
#[derive(Drop)]
pub(crate) struct Said {
    pub(crate) text: Vec<u8>,
    pub(crate) decided: bool,
}

/// No stream here has more bytes.
const MOST: usize = 2_000;

/// Shows the bytes in pieces of this size, up to where the last line is decided.
pub(crate) fn shown_by(alloc: Global, bytes: &[u8], size: usize) -> Result<Said, Fail> {
    let mut showing = Showing::new(alloc);
    let (mut text, mut all) = (Vec::new(alloc), Vec::new(alloc));
    let mut fed_bytes = 0usize;
    for piece in bytes.chunks(size.max(1)) {
        if fed_bytes > MOST || piece.len() > MOST || showing.rows > 9 {
            return Err(Fail::from("too long"));
        }
        let stand = showing.next(alloc, piece, &mut text)?;
        fed_bytes += piece.len();
        all.extend_from_slice(&text)?;
        if stand != Stand::Going {
            return Ok(Said {
                text: all,
                decided: true,
            });
        }
    }
    showing.end(&mut text)?;
    all.extend_from_slice(&text)?;
    Ok(Said {
        text: all,
        decided: false,
    })
}

#[test]
fn a_stream_in_pieces_shows_the_lines_of_the_whole(rt: HostRuntime) -> Result<(), Fail> {
    let nine = NINE.as_slice();
    let cases = [
        Case {
            bytes: nine,
            text: &[EIGHT, "| 9 \"x\"\n", "rows 9\n"],
            decided: true,
        },
        Case {
            bytes: nine.get(..792).unwrap_or(&[]),
            text: &[EIGHT, "| 9 \"x\"\n", "rows 9\n"],
            decided: false,
        },
        Case {
            bytes: nine.get(..780).unwrap_or(&[]),
            text: &[EIGHT, "not a stream at 552 Short\n"],
            decided: false,
        },
        Case {
            bytes: b"",
            text: &["not a stream at 0 Short\n"],
            decided: false,
        },
        Case {
            bytes: b"\xff\xff\xff\xff\x08\x00\x00",
            text: &["not a stream at 0 Short\n"],
            decided: false,
        },
        Case {
            bytes: b"ARROW1\x00\x00",
            text: &["not a stream at 0 Marker\n"],
            decided: true,
        },
    ];
    for size in [1, 7, 800] {
        for case in &cases {
            let said = shown_by(rt.alloc(), case.bytes, size)?;
            let kept = case.bytes.len();
            let mut due: Vec<u8> = Vec::new(rt.alloc());
            for piece in case.text {
                due.extend_from_slice(piece.as_bytes())?;
            }
            assert_eq!(rt; said.text.as_slice(), due.as_slice(), "{kept} by {size}");
            assert_eq!(rt; said.decided, case.decided, "{kept} by {size}");
        }
    }
    Ok(())
}
