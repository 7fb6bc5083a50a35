//! A source of the tests that makes its bytes up, for inputs too long to be kept, and counts its calls.
ghost use Rattle.std.specs.Prelude.{◌≡◌};
ghost use Rattle.layout_outside.specs.Views.{untold_source};

use layout_outside::{Failed, Source};

// Hands out a front and then spaces, up to so many bytes, in pieces of so many.
#[derive(Drop)]
pub struct Spaces {
    front: Vec<u8>,
    at: u64,
    len: u64,
    piece: usize,
    // The last read answered the end.
    ended: bool,
    // How many reads there were.
    pub calls: u64,
}

impl Spaces {
    pub fn new(front: Vec<u8>, len: u64, piece: usize) -> Spaces {
        Spaces {
            front,
            at: 0,
            len,
            piece,
            ended: false,
            calls: 0,
        }
    }
}

impl Source for Spaces {
    ghost view = { λ s. untold_source 0 s.ended };

    fn read(&mut self, buf: &mut [u8]) -> Result<usize, Failed> {
        self.calls = self.calls.saturating_add(1);
        let most = self.piece.min(buf.len());
        let count = (self.len.saturating_sub(self.at)).min(most as u64) as usize;
        buf[..count].fill(b' ');
        if self.at < self.front.len() as u64 {
            let at = self.at as usize;
            let first = (self.front.len() - at).min(count);
            buf[..first].copy_from_slice(&self.front[at..at + first]);
        }
        self.at = self.at.saturating_add(count as u64);
        self.ended = count == 0;
        Ok(count)
    }
}
