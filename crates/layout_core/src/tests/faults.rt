//! Faults of the input: their statuses and lines.
use super::devices::{Given, in_pieces, run};
use std::alloc::Global;
use std::test::Fail;

#[test]
fn faults_of_the_input_have_their_statuses_and_lines(rt: HostRuntime) -> Result<(), Fail> {
    let faults: [(&[u8], u8, &[u8]); 19] = [
        (b"", 3, b"bad page: magic at 0\n"),
        (b"Q4", 3, b"bad page: magic at 0\n"),
        (b"P", 3, b"bad page: magic at 1\n"),
        (b"P5", 3, b"bad page: magic at 1\n"),
        (b"P4", 3, b"bad page: truncated at 2\n"),
        (b"P48 1\n", 3, b"bad page: header at 2\n"),
        (b"P4\n16 x", 3, b"bad page: header at 6\n"),
        (b"P4\n8 1#c\n\0", 3, b"bad page: header at 6\n"),
        (b"P4\n0 99999\n", 3, b"bad page: zero size\n"),
        (b"P4\n16 2\n\0\0\0", 3, b"bad page: truncated at 11\n"),
        (b"P1\n2 1\n0x", 3, b"bad page: pixel at 8\n"),
        (b"P1\n1 1\n01", 3, b"bad page: trailing at 8\n"),
        (b"P4\n8 1\n\0\0", 3, b"bad page: magic at 8\n"),
        (b"P4\n8 1\n\0P1\n1 1\n0", 3, b"bad page: magic at 9\n"),
        (
            b"P4\n8 1\n\0P4\n16 2\n\0\0\0",
            3,
            b"bad page: truncated at 19\n",
        ),
        (b"P4\n8193 1\n", 4, b"limit: size 8193 by 1\n"),
        (b"P4\n8192 4097\n", 4, b"limit: size 8192 by 4097\n"),
        (b"P4\n99999999999 1\n", 4, b"limit: size 999999999 by 1\n"),
        (
            b"P4\n99999999999 99999999999\n",
            4,
            b"limit: size 999999999 by 999999999\n",
        ),
    ];
    for piece in [1, 16] {
        for (input, status, line) in faults {
            let outcome = run(&rt, rt.alloc(), &[], &in_pieces(input, piece))?;
            assert!(rt; outcome.is_refusal(status, line), "{input:?}");
        }
    }
    Ok(())
}

#[test]
fn a_header_over_65536_bytes_is_a_limit(rt: HostRuntime) -> Result<(), Fail> {
    let mut input = b"P4".to_vec(rt.alloc())?;
    input.resize(65_536, b' ')?;
    input.extend_from_slice(b"8 1\n")?;
    let outcome = run(&rt, rt.alloc(), &[], &in_pieces(&input, 4096))?;
    assert!(rt; outcome.is_refusal(4, b"limit: header over 65536 bytes\n"));
    Ok(())
}

// A page of 1000 by 481 with 240 rows of 250 blocks, each 3 wide and 1 high, and the first block of
// one more row.
fn blocks(alloc: Global) -> Result<Vec<u8>, Fail> {
    let mut input = b"P4\n1000 481\n".to_vec(alloc)?;
    for y in 0..480 {
        let bits = if y % 2 == 0 { 0xee } else { 0 };
        for _ in 0..125 {
            input.push(bits)?;
        }
    }
    input.push(0xe0)?;
    for _ in 1..125 {
        input.push(0)?;
    }
    Ok(input)
}

// What stands behind an image has no part in it, nor has a read that fails behind it.
#[test]
fn more_than_60000_components_are_refused(rt: HostRuntime) -> Result<(), Fail> {
    let alloc = rt.alloc();
    let line: &[u8] = b"limit: 60001 components\n";
    for behind in [b"".as_slice(), b"x", b"P4\n0 1\n"] {
        let mut input = blocks(alloc)?;
        let image = input.len();
        input.extend_from_slice(behind)?;
        let given = Given {
            input: &input,
            piece: 4096,
            read_fails: &[image as u64 / 4096 + 1],
        };
        let outcome = run(&rt, alloc, &[], &given)?;
        assert!(rt; outcome.is_refusal(4, line));
    }
    Ok(())
}

#[test]
fn a_later_page_may_not_have_more_than_60000_components(rt: HostRuntime) -> Result<(), Fail> {
    let alloc = rt.alloc();
    let mut input = b"P4\n8 1\n\0".to_vec(alloc)?;
    let image = blocks(alloc)?;
    input.extend_from_slice(&image)?;
    let outcome = run(&rt, alloc, &[], &in_pieces(&input, 4096))?;
    assert!(rt; outcome.is_refusal(4, b"limit: 60001 components\n"));
    Ok(())
}

#[test]
fn no_read_is_made_once_a_fault_is_decided(rt: HostRuntime) -> Result<(), Fail> {
    let cases: [(&[u8], u64); 4] = [
        (b"Q4\n8 1\n\0", 1),
        (b"P4\n0 1\n\0", 7),
        (b"P4\n8 1\n\0\0\0\0", 9),
        (b"P4\n8 1\n\0", 9),
    ];
    for (input, reads) in cases {
        let outcome = run(&rt, rt.alloc(), &[], &in_pieces(input, 1))?;
        assert_eq!(rt; outcome.reads, reads, "{input:?}");
    }
    Ok(())
}
