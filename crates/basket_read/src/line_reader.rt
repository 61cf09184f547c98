//! What takes more of a text.
ghost use Rattle.std.specs.Prelude.{ℕ, List, ◌++◌, ⊤, MatchResult};
ghost use Rattle.std.specs.Thread.{IsSync};
ghost use Rattle.basket_sets.specs.declared.weighted.Weighted.{Weighted};
ghost use Rattle.basket_read.specs.Fault.{ReturnsFault};
ghost use Rattle.basket_read.specs.Fimi.{first_fault};
ghost use Rattle.basket_read.specs.Text.{ReadsOn};

use crate::fault::ReadFault;
use crate::lines::feed_shared;
use crate::text::Text;
use std::mem;
use std::thread::Threads;

/// What takes more of a text.
pub(crate) trait LineReader {
    ghost is_ready: { Self → Type 0 };

    /// Takes more of a text, up to its first fault.
    fn feed(&self, text: &mut Text, piece: &[u8]) -> Result<(), ReadFault>
        requires { is_ready self.now }
        ensures { ReadsOn text.old piece.now result (λ _. text.new) };
}

/// The thread that reads.
#[derive(Drop)]
pub(crate) struct Alone;

impl LineReader for Alone {
    ghost is_ready = { λ _. ⊤ };

    fn feed(&self, text: &mut Text, piece: &[u8]) -> Result<(), ReadFault> {
        text.feed(piece)
    }
}

/// This many workers.
#[derive(Drop)]
pub(crate) struct Workers<'a, R> {
    pub rt: &'a R,
    pub count: u32,
}

impl<R: Threads + Sync> LineReader for Workers<'_, R> {
    ghost is_ready = { λ _. IsSync R.row };

    fn feed(&self, text: &mut Text, piece: &[u8]) -> Result<(), ReadFault> {
        let empty = Text::new(text.alloc(), false, 0);
        let before = mem::replace(text, empty);
        *text = feed_shared(self.rt, before, piece, self.count)?;
        Ok(())
    }
}
