// Texts of bounded length, and numbers in decimal digits: what programs print. All texts are ASCII bytes.
#![tactic(auto)]

ghost use Rattle.std.specs.Prelude.{◌≡◌, [], ◌++◌, ◌≤◌, length, take};
ghost use Rattle.text.specs.Text.{decimal};

use std::marker::Model;

// A text of at most N bytes. Clauses see the text.
#[derive(Clone, Copy)]
pub struct Text<const N: usize> {
    // The text stands at the front, and zeros behind it: so a text gives its bytes back, and may be copied.
    bytes: [u8; N],
    len: usize,
}

impl<const N: usize> Model for Text<N> {
    ghost use Rattle.std.specs.Prelude.{ℕ, ◌≡◌, ◌-◌, ◌≤◌, ◌++◌, List, length, take, drop};
    ghost use Rattle.std.proofs.Common.{◌∙◌, ap, sym, take-append-drop, length-take-le};
    ghost use Rattle.lists.specs.Table.{zeros};

    ghost Value = { List ℕ };

    ghost view = { λ t. take t.len t.bytes };

    ghost invariant = { λ t. (t.len ≤ length t.bytes) × (length t.bytes ≡ N) × (drop t.len t.bytes ≡ zeros (N - t.len)) };

    ghost inverse = { λ text. record { bytes = text ++ zeros (N - length text); len = length text } };

    ghost inverse_ok = { λ t h i. record {
      bytes = (ap (λ n. take t.len t.bytes ++ zeros (N - n)) (length-take-le t.len t.bytes h.0)
          ∙ ap (λ rest. take t.len t.bytes ++ rest) (sym h.2)
          ∙ take-append-drop t.len t.bytes) i;
      len = length-take-le t.len t.bytes h.0 i;
    } };
}

impl<const N: usize> Text<N> {
    pub fn new() -> Self
        ensures { result ≡ [] }
    {
        Text {
            bytes: [0; N],
            len: 0,
        }
    }

    // Appends a text, as far as there is room.
    pub fn push(&mut self, s: &[u8])
        ensures { self.new ≡ take N (self.old ++ s.now) }
    {
        let start = self.len;
        let n = s.len().min(N - start);
        let bytes = &mut self.bytes[..];
        bytes[start..start + n].copy_from_slice(&s[..n]);
        self.len = start + n;
    }

    // Appends a number likewise.
    pub fn push_decimal(&mut self, n: u64)
        ensures { self.new ≡ take N (self.old ++ decimal n) }
    {
        if n >= 10 {
            self.push_decimal(n / 10);
        }
        self.push(&[b'0' + (n % 10) as u8]);
    }

    pub fn as_bytes(&self) -> &[u8]
        ensures value { result.now ≡ self.now }
        ensures fits { length result.now ≤ N }
    {
        &self.bytes[..self.len]
    }
}
