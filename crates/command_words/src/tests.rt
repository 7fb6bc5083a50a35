//! Command lines with and without a plan.
use crate::{Plan, Program, WordFault, words_have_one_plan, words_of};
use std::alloc::Global;
use std::test::Fail;

// The answer to words of a program.
fn told(alloc: Global, words: &[&str], program: Program) -> Result<Result<Plan, WordFault>, Fail> {
    let mut owned = Vec::new(alloc);
    for word in words {
        owned.push(String::from_str(alloc, *word)?)?;
    }
    Ok(words_of(alloc, &owned, program))
}

// Whether the words of a program have no plan.
fn is_refused(alloc: Global, words: &[&str], program: Program) -> Result<bool, Fail> {
    Ok(matches!(told(alloc, words, program)?, Err(WordFault::Usage)))
}

// The place of the first words that have a plan in one of the programs.
fn first_with_a_plan(
    alloc: Global,
    lines: &[&[&str]],
    programs: &[Program],
) -> Result<Option<usize>, Fail> {
    for (place, words) in lines.iter().enumerate() {
        for program in programs {
            if !is_refused(alloc, words, *program)? {
                return Ok(Some(place));
            }
        }
    }
    Ok(None)
}

// The plan of the words of a program.
fn plan(alloc: Global, words: &[&str], program: Program) -> Result<Plan, Fail> {
    match told(alloc, words, program)? {
        Ok(plan) => Ok(plan),
        Err(_) => Err("no plan")?,
    }
}

#[test]
fn words_refused(rt: HostRuntime) -> Result<(), Fail> {
    let lines: [&[&str]; 35] = [
        &["--rects", "257"],
        &["--rects", "1", "--rects=2"],
        &["--image", "a\"b"],
        &["--image", "-"],
        &["--image="],
        &["--image", ""],
        &["--"],
        &["--image", "a", "--"],
        &["--rects", "--"],
        &["--help"],
        &["-h"],
        &["--version"],
        &["-V"],
        &["-"],
        &[""],
        &["help"],
        &["page.pbm"],
        &["--image", "a", "b"],
        &["--workers", "2"],
        &["--workers=1"],
        &["--rects", "+3"],
        &["--rects", "-1"],
        &["--rects=-1"],
        &["--rects= 3"],
        &["--rects=3 "],
        &["--rects=0x3"],
        &["--rects=\u{0663}"],
        &["--rects="],
        &["--rects"],
        &["--rects", "0"],
        &["--rect", "3"],
        &["--rects:3"],
        &["-rects", "3"],
        &["--=3"],
        &["--image", "--rects", "3"],
    ];
    assert_eq!(rt;
        first_with_a_plan(rt.alloc(), &lines, &[Program::Alone])?,
        None
    );
    Ok(())
}

#[test]
fn words_with_a_plan(rt: HostRuntime) -> Result<(), Fail> {
    let lines: [(&[&str], u16, &str); 15] = [
        (&[], 32, ""),
        (&["--rects", "1"], 1, ""),
        (&["--rects=0256"], 256, ""),
        (&["--rects", "256"], 256, ""),
        (&["--image=-x"], 32, "-x"),
        (&["--image=-"], 32, "-"),
        (&["--image=--"], 32, "--"),
        (&["--image=--rects=3"], 32, "--rects=3"),
        (&["--image=="], 32, "="),
        (&["--image", "="], 32, "="),
        (&["--image", "a b"], 32, "a b"),
        (&["--image", "a=b"], 32, "a=b"),
        (&["--image", "help"], 32, "help"),
        (&["--rects", "2", "--image=p 1.pbm"], 2, "p 1.pbm"),
        (
            &["--image", "scan-0042.png", "--rects", "64"],
            64,
            "scan-0042.png",
        ),
    ];
    for (words, rects, image) in lines {
        let plan = plan(rt.alloc(), words, Program::Alone)?;
        assert_eq!(rt;
            (plan.rects, plan.workers, plan.make),
            (rects, 1, None),
            "{words:?}"
        );
        assert_eq!(rt; plan.image.as_slice(), image.as_bytes(), "{words:?}");
    }
    words_have_one_plan();
    Ok(())
}

#[test]
fn an_option_stands_once(rt: HostRuntime) -> Result<(), Fail> {
    let lines: [&[&str]; 8] = [
        &["--rects", "1", "--rects", "1"],
        &["--rects", "1", "--rects=1"],
        &["--rects=1", "--rects", "1"],
        &["--rects=1", "--rects=1"],
        &["--image", "a", "--image", "a"],
        &["--image", "a", "--image=a"],
        &["--image=a", "--image", "a"],
        &["--image=a", "--rects=3", "--image=a"],
    ];
    assert_eq!(rt;
        first_with_a_plan(rt.alloc(), &lines, &[Program::Alone])?,
        None
    );
    Ok(())
}

#[test]
fn a_number_has_at_most_twenty_digits(rt: HostRuntime) -> Result<(), Fail> {
    for (word, rects) in [
        ("--rects=7", 7),
        ("--rects=00000000000000000032", 32),
        ("--rects=00000000000000000001", 1),
    ] {
        let plan = plan(rt.alloc(), &[word], Program::Alone)?;
        assert_eq!(rt; plan.rects, rects, "{word}");
    }
    for word in [
        "--rects=000000000000000000032",
        "--rects=18446744073709551617",
        "--rects=99999999999999999999",
    ] {
        assert!(rt; is_refused(rt.alloc(), &[word], Program::Alone)?, "{word}");
    }
    Ok(())
}

#[test]
fn an_image_has_at_most_255_bytes(rt: HostRuntime) -> Result<(), Fail> {
    let alloc = rt.alloc();
    let longest = "~".repeat(alloc, 255)?;
    let plan = plan(alloc, &["--image", longest.as_str()], Program::Alone)?;
    assert_eq!(rt; plan.image.as_slice(), longest.as_bytes());
    let longer = "~".repeat(alloc, 256)?;
    assert!(rt; is_refused(alloc, &["--image", longer.as_str()], Program::Alone)?);
    Ok(())
}

#[test]
fn bytes_of_an_image(rt: HostRuntime) -> Result<(), Fail> {
    for value in [
        "\"",
        "'",
        "<",
        ">",
        "&",
        ";",
        "\\",
        "\0",
        "\t",
        "\n",
        "\x1f",
        "\x7f",
        "caf\u{e9}",
    ] {
        let word = format!(in rt.alloc(); "--image=a{value}b")?;
        assert!(rt;
            is_refused(rt.alloc(), &[word.as_str()], Program::Alone)?,
            "{value:?}"
        );
    }
    for value in [" ", "!", "#", "%", "(", ":", "=", "?", "[", "]", "~"] {
        let plan = plan(rt.alloc(), &["--image", value], Program::Alone)?;
        assert_eq!(rt; plan.image.as_slice(), value.as_bytes(), "{value:?}");
    }
    Ok(())
}

#[test]
fn workers_of_the_shared_program(rt: HostRuntime) -> Result<(), Fail> {
    let lines: [(&[&str], u16); 5] = [
        (&[], 4),
        (&["--workers", "2"], 2),
        (&["--workers=1"], 1),
        (&["--rects", "3", "--workers", "64"], 64),
        (&["--workers=0064", "--image", "a"], 64),
    ];
    for (words, workers) in lines {
        let plan = plan(rt.alloc(), words, Program::Shared)?;
        assert_eq!(rt; plan.workers, workers, "{words:?}");
    }
    let refused: [&[&str]; 4] = [
        &["--workers", "0"],
        &["--workers", "65"],
        &["--workers"],
        &["--workers", "2", "--workers=2"],
    ];
    assert_eq!(rt;
        first_with_a_plan(rt.alloc(), &refused, &[Program::Shared])?,
        None
    );
    Ok(())
}

#[test]
fn a_flag_stands_once_alone_and_without_a_seed(rt: HostRuntime) -> Result<(), Fail> {
    let lines: [(&[&str], [bool; 3], u16); 11] = [
        (&[], [false, false, false], 32),
        (&["--words"], [true, false, false], 32),
        (&["--blocks"], [false, true, false], 32),
        (&["--xy"], [false, false, true], 32),
        (&["--xy", "--blocks", "--words"], [true, true, true], 32),
        (&["--words", "--rects", "2", "--xy"], [true, false, true], 2),
        (
            &["--rects=2", "--words", "--image", "a"],
            [true, false, false],
            2,
        ),
        (
            &["--image", "words", "--rects=3", "--blocks"],
            [false, true, false],
            3,
        ),
        (&["--image=--words"], [false, false, false], 32),
        (&["--image=--blocks"], [false, false, false], 32),
        (&["--image=--xy", "--xy"], [false, false, true], 32),
    ];
    let programs = [Program::Alone, Program::Shared];
    for (words, shown, rects) in lines {
        for program in programs {
            let plan = plan(rt.alloc(), words, program)?;
            assert_eq!(rt;
                ([plan.words, plan.blocks, plan.xy], plan.rects),
                (shown, rects),
                "{words:?}"
            );
        }
    }
    let refused: [&[&str]; 20] = [
        &["--blocks", "--blocks"],
        &["--blocks=1"],
        &["--blocks="],
        &["--blocks", "--make", "7"],
        &["--xy", "--xy"],
        &["--xy", "--words", "--xy"],
        &["--xy=1"],
        &["--xy="],
        &["--xy", "--make", "7"],
        &["--make=7", "--words", "--xy"],
        &["--x"],
        &["--words", "--words"],
        &["--words", "--rects", "2", "--words"],
        &["--words=x"],
        &["--words="],
        &["--words", "x"],
        &["--image", "--words", "a"],
        &["--words", "--make", "7"],
        &["--make=7", "--words"],
        &["--word"],
    ];
    assert_eq!(rt; first_with_a_plan(rt.alloc(), &refused, &programs)?, None);
    Ok(())
}

#[test]
fn words_with_a_seed(rt: HostRuntime) -> Result<(), Fail> {
    let lines: [(&[&str], u64, u16); 6] = [
        (&["--make", "7"], 7, 32),
        (&["--make=0"], 0, 32),
        (&["--make", "18446744073709551615"], u64::MAX, 32),
        (&["--make=00000000000000000007"], 7, 32),
        (&["--make", "7", "--rects", "2"], 7, 2),
        (&["--rects=2", "--make=7"], 7, 2),
    ];
    for (words, seed, rects) in lines {
        for (program, workers) in [(Program::Alone, 1), (Program::Shared, 4)] {
            let plan = plan(rt.alloc(), words, program)?;
            assert_eq!(rt;
                (plan.make, plan.rects, plan.workers),
                (Some(seed), rects, workers),
                "{words:?}"
            );
            assert!(rt; plan.image.as_slice().is_empty(), "{words:?}");
        }
    }
    let words: [&[&str]; 2] = [
        &["--make", "7", "--workers", "8"],
        &["--workers=8", "--make=7"],
    ];
    for words in words {
        let plan = plan(rt.alloc(), words, Program::Shared)?;
        assert_eq!(rt; (plan.make, plan.workers), (Some(7), 8), "{words:?}");
    }
    Ok(())
}

#[test]
fn words_with_a_seed_refused(rt: HostRuntime) -> Result<(), Fail> {
    let lines: [&[&str]; 16] = [
        &["--image", "a", "--make", "1"],
        &["--make", "1", "--image", "a"],
        &["--image=a", "--make=1"],
        &["--make=1", "--image=a"],
        &["--make=0", "--rects", "3", "--image", "a"],
        &["--make", "18446744073709551616"],
        &["--make=99999999999999999999"],
        &["--make", "000000000000000000007"],
        &["--make"],
        &["--make="],
        &["--make", ""],
        &["--make", "-1"],
        &["--make=-1"],
        &["--make", "+1"],
        &["--make", "1", "--make", "1"],
        &["--make=1", "--rects=3", "--make=1"],
    ];
    let programs = [Program::Alone, Program::Shared];
    assert_eq!(rt; first_with_a_plan(rt.alloc(), &lines, &programs)?, None);
    Ok(())
}
