//! A bound word by hand, raised to the keys that the steps of a space settle.
ghost use Rattle.std.specs.Prelude.{◌≡◌, ◌<◌, All, IfOk, OnOk, length};
ghost use Rattle.bound_word.specs.Callers.{IsCallerOf};

use super::pages::{BELOW, RIGHT, corner_block};
use bound_word::{BoundWord, WordPass, WordTable};
use box_search::{Node, Space, Step};
use layout_limits::OutOfMemory;
use std::alloc::Global;
use std::process::Abort;
use std::test::Fail;

/// The parts of a space's root.
fn parts_of<S: Space>(
    rt: &impl Abort,
    alloc: Global,
    space: &S,
) -> Result<Vec<Node<S::Work>>, OutOfMemory>
    ensures fits { IfOk result (λ parts. All (S.fits (S.problem space.now)) parts.items) }
{
    let Some(root) = space.root(alloc)? else {
        panic!(rt; "no root");
    };
    match space.step(alloc, &root)? {
        Step::Split(parts) => Ok(parts),
        Step::Settled(_) => panic!(rt; "the root is settled"),
    }
}

/// Settles the part at a place, and raises the word to its key. Answers the key, the word before, and the word after, and
/// nothing where the part is split.
fn settle<S: Space>(
    alloc: Global,
    space: &S,
    word: &WordTable<'_, S>,
    pass: &mut WordPass<S>,
    parts: &[Node<S::Work>],
    place: usize,
) -> Result<Option<(u64, u64, u64)>, OutOfMemory>
    requires problem { word.now.problem ≡ S.problem space.now }
    requires own { IsCallerOf word.now pass.old }
    requires fits { All (S.fits (S.problem space.now)) parts.now }
    requires within { place < length parts.now }
    ensures own { OnOk result (IsCallerOf word.now pass.new) }
{
    match space.step(alloc, &parts[place])? {
        Step::Settled(key) => {
            let (before, after) = raise_and_read(word, pass, key);
            Ok(Some((key, before, after)))
        }
        Step::Split(_) => Ok(None),
    }
}

/// Raises any bound word, and reads it afterwards.
fn raise_and_read<W: BoundWord>(word: &W, pass: &mut W::Pass, key: u64) -> (u64, u64)
    requires own { W.is_own word.now pass.old }
    requires admitted { W.admits word.now key }
    ensures own { W.is_own word.now pass.new }
    ensures rest { W.rest pass.new ≡ W.rest pass.old }
{
    let before = word.raise(pass, key);
    (before, word.read(pass))
}

#[test]
fn bound_word_by_hand(rt: HostRuntime) -> Result<(), Fail> {
    let alloc = rt.alloc();
    let white = corner_block(&rt, alloc)?;
    let parts = parts_of(&rt, alloc, &white)?;
    assert_eq!(rt; parts.len(), 2);
    let (word, mut pass) = WordTable::start(alloc, &white)?;
    assert_eq!(rt; word.read(&mut pass), 0);
    assert_eq!(rt;
        settle(alloc, &white, &word, &mut pass, &parts, 1)?,
        Some((BELOW, 0, BELOW))
    );
    assert_eq!(rt;
        settle(alloc, &white, &word, &mut pass, &parts, 0)?,
        Some((RIGHT, BELOW, RIGHT))
    );
    assert_eq!(rt;
        settle(alloc, &white, &word, &mut pass, &parts, 1)?,
        Some((BELOW, RIGHT, RIGHT))
    );
    Ok(())
}
