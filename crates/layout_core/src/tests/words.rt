//! Words of the command line: refused, and followed.
use super::devices::{Outcome, in_pieces, run, run_of};
use crate::Program;
use std::test::Fail;

const ONE_WHITE_PIXEL: &[u8] = b"P1\n1 1\n0\n";

// Words that have a plan in neither program.
const REFUSED: [&[&str]; 15] = [
    &["--rects", "257"],
    &["--rects", "1", "--rects=2"],
    &["--rects", "+3"],
    &["--image", "a\"b"],
    &["--image", "-"],
    &["--image="],
    &["--"],
    &["--help"],
    &["page.pbm"],
    &[""],
    &["--image", "a", "--make", "1"],
    &["--make", "18446744073709551616"],
    &["--words", "--words"],
    &["--words=x"],
    &["--words", "--make", "7"],
];

const USAGE_ALONE: &[u8] =
    b"usage: layout1 [--rects N] [--image NAME] [--make SEED] [--words] [--blocks] [--xy]\n";

const USAGE_SHARED: &[u8] =
    b"usage: layout [--workers N] [--rects N] [--image NAME] [--make SEED] [--words] [--blocks] [--xy]\n";

// Whether a run ended for its words: nothing was read or written but the line.
fn is_for_words(outcome: &Outcome, line: &[u8]) -> bool {
    outcome.reads == 0 && outcome.is_refusal(2, line)
}

#[test]
fn words_refused(rt: HostRuntime) -> Result<(), Fail> {
    let alloc = rt.alloc();
    let given = in_pieces(ONE_WHITE_PIXEL, 16);
    for words in REFUSED {
        let alone = run_of(&rt, alloc, Program::Alone, words, &given)?;
        assert!(rt; is_for_words(&alone, USAGE_ALONE), "{words:?}");
        let shared = run_of(&rt, alloc, Program::Shared, words, &given)?;
        assert!(rt; is_for_words(&shared, USAGE_SHARED), "{words:?}");
    }
    let alone = run_of(&rt, alloc, Program::Alone, &["--workers", "2"], &given)?;
    assert!(rt; is_for_words(&alone, USAGE_ALONE));
    let shared = run_of(&rt, alloc, Program::Shared, &["--workers", "0"], &given)?;
    assert!(rt; is_for_words(&shared, USAGE_SHARED));
    Ok(())
}

#[test]
fn words_with_a_plan_are_followed(rt: HostRuntime) -> Result<(), Fail> {
    let cases: [(&[&str], &[u8]); 3] = [
        (
            &["--image", "scan.pbm"],
            b"title='image \"scan.pbm\"; bbox 0 0 1 1; ppageno 0; x_black 0'>\n",
        ),
        (
            &["--image=-x", "--rects", "1"],
            b"title='image \"-x\"; bbox 0 0 1 1; ppageno 0; x_black 0'>\n",
        ),
        (
            &["--rects=0256"],
            b"title='bbox 0 0 1 1; ppageno 0; x_black 0'>\n",
        ),
    ];
    for (words, title) in cases {
        let outcome = run(&rt, rt.alloc(), words, &in_pieces(ONE_WHITE_PIXEL, 16))?;
        assert_eq!(rt; outcome.status, 0, "{words:?}");
        let text = outcome.out.as_slice();
        assert!(rt;
            text.windows(title.len()).any(|part| part == title),
            "{words:?}"
        );
    }
    Ok(())
}
