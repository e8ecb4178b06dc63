//! A text of bounded length in a fixed array. Contracts see a list of bytes.
ghost use Rattle.std.specs.Prelude.{◌≡◌, ◌<◌, ◌≤◌, All, length};

use std::marker::Model;

/// At most `CAPACITY` bytes. The cells after them are 0.
#[derive(Clone, Copy, PartialEq, Eq)]
pub(crate) struct ShortText<const CAPACITY: usize> {
    cells: [u8; CAPACITY],
    len: usize,
}

impl<const CAPACITY: usize> Model for ShortText<CAPACITY> {
    ghost use Rattle.std.specs.Prelude.{ℕ, ◌-◌, List, ◌++◌, length, take, replicate};
    ghost use Rattle.std.proofs.Common.{sym, ap, ◌∙◌};
    ghost use Rattle.ados_name.specs.ShortText.{HoldsText};

    ghost Value = { List ℕ };

    ghost view = { λ s. take s.len s.cells };

    ghost invariant = { λ s. HoldsText CAPACITY s.len s.cells };

    ghost inverse = { λ bytes. record {
      cells = bytes ++ replicate (CAPACITY - length bytes) 0;
      len = length bytes;
    } };

    ghost inverse_ok = { λ s h i. record {
      cells = (ap (λ n. take s.len s.cells ++ replicate (CAPACITY - n) 0) (sym h.front) ∙ sym h.back) i;
      len = sym h.front i;
    } };
}

impl<const CAPACITY: usize> ShortText<CAPACITY> {
    pub(crate) fn new(text: &[u8]) -> Self
        requires { length text.now ≤ CAPACITY }
        ensures value { result ≡ text.now }
        ensures bytes { All (λ c. c < 256) text.now }
    {
        let mut cells = [0; CAPACITY];
        cells[..text.len()].copy_from_slice(text);
        ShortText {
            cells,
            len: text.len(),
        }
    }

    pub(crate) fn bytes(&self) -> &[u8]
        ensures value { result.now ≡ self.now }
        ensures fits { length self.now ≤ CAPACITY }
        ensures bytes { All (λ c. c < 256) self.now }
    {
        &self.cells[..self.len]
    }
}
