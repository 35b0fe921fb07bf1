//! Tests of the text of replies: lines are printed, and other texts are none.
use reply_text::{put_line, put_refusal, read_line};
use std::test::Fail;
use workload_spec::{Cause, ReplyLine, Said, Who};

/// Texts of no reply over no table: no line, or one too many; words that there are not, too many or
/// too few; a second spelling; a number past its type; rows out of count, without a bar or without
/// a cell; a table that there is not.
const NO_REPLIES: [&str; 43] = [
    "",
    "\n",
    "1 2 5 ok",
    "1 2 5 ok\n\n",
    "1 2 5 ok\n1 2 6 ok\n",
    "1 2 ok\n",
    "1 2 5\n",
    "1 2 5 \n",
    "1 2 5 done\n",
    "1 2 5 ok \n",
    "1 2 5  ok\n",
    "01 2 5 ok\n",
    "1 +2 5 ok\n",
    "1 v2 5 ok\n",
    "4294967296 2 5 ok\n",
    "1 w4294967296 5 ok\n",
    "1 2 18446744073709551616 ok\n",
    "1 2 5 at 00\n",
    "1 2 5 committed\n",
    "1 2 5 conflict # 3\n",
    "1 2 5 conflict session 4294967296\n",
    "1 2 5 dirty -0\n",
    "1 2 5 dirty 9223372036854775808\n",
    "1 2 5 export 1 rows 9 batches 2\n",
    "1 2 5 not sealed\n",
    "1 2 5 freezing a 0 1\n",
    "1 2 5 row\n",
    "1 2 5 row 1 x0A\n",
    "1 2 5 row 1 \"\\x41\"\n",
    "1 2 5 rows 1\n",
    "1 2 5 rows 0\n| 1\n",
    "1 2 5 rows 1\n1\n",
    "1 2 5 rows 1\n| \n",
    "1 2 5 rows 2\n| 1\n| 2",
    "1 2 5 stale a 2 #2\n",
    "1 2 5 stale table a #1\n",
    "1 2 5 stale range a 1 2 #1\n",
    "1 2 5 stale\n",
    "1 2 5 total 3\n",
    "1 2 5 total 3 +1\n",
    "1 2 5 total 3 -0\n",
    "1 2 5 total 18446744073709551616 0\n",
    "1 2 5 total 3 170141183460469231731687303715884105728\n",
];

#[test]
fn other_texts_are_no_replies(rt: HostRuntime) -> Result<(), Fail> {
    for text in NO_REPLIES {
        let read = read_line(rt.alloc(), text.as_bytes(), &[])?;
        assert!(rt; read.is_none(), "{text}");
    }
    Ok(())
}

/// The texts of totals, with the least and the greatest sum.
const TOTALS: [&str; 3] = [
    "1 2 5 total 0 0\n",
    "1 2 5 total 18446744073709551615 -170141183460469231731687303715884105728\n",
    "1 2 5 total 3 170141183460469231731687303715884105727\n",
];

#[test]
fn totals_are_read_and_printed_back(rt: HostRuntime) -> Result<(), Fail> {
    let alloc = rt.alloc();
    for text in TOTALS {
        let line = read_line(alloc, text.as_bytes(), &[])?.ok_or("the text is a total")?;
        let mut out = Vec::new(alloc);
        put_line(&mut out, &[], &line)?;
        assert_eq!(rt; out.as_slice(), text.as_bytes());
    }
    Ok(())
}

#[test]
fn lines_stand_behind_one_another(rt: HostRuntime) -> Result<(), Fail> {
    let alloc = rt.alloc();
    let mut out = Vec::new(alloc);
    let line = ReplyLine {
        round: 1,
        who: Who::Worker(1),
        index: 1,
        said: Said::Cooling(0),
    };
    put_line(&mut out, &[], &line)?;
    put_refusal(&mut out, 6, Cause::Session)?;
    assert_eq!(rt;
        out.as_slice(),
        b"1 w1 1 cooling 0\nrefused 6 session\n".as_slice()
    );
    Ok(())
}
