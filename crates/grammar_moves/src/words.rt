//! Words in a row.

ghost use Rattle.std.specs.Prelude.{◌≤◌};

use c_tree::Terminal;

/// Which words a node of words may be.
#[derive(Clone, Copy)]
pub enum Wording {
    Cast,
    Type,
    File,
}

/// The most words that stand in a row.
const MOST_WORDS: usize = 5;

/// Words in a row.
#[derive(Clone, Copy)]
pub struct Words {
    count: usize,
    terminals: [Terminal; 5],
    ghost bounded: { count ≤ 5 },
}

impl Words {
    ghost use Rattle.std.specs.Prelude.{◌≡◌, ◌++◌, [], ◌∷◌, length, IfSome, IsNone};
    ghost use Rattle.grammar_moves.specs.PlainPlaces.{plain_words};

    pub(crate) fn none() -> Words
        ensures { plain_words result ≡ [] }
    {
        Words {
            count: 0,
            terminals: [Terminal::Other; 5],
        }
    }

    pub(crate) fn one(word: Terminal) -> Words
        ensures { plain_words result ≡ word ∷ [] }
    {
        Words {
            count: 1,
            terminals: [
                word,
                Terminal::Other,
                Terminal::Other,
                Terminal::Other,
                Terminal::Other,
            ],
        }
    }

    pub(crate) fn as_slice(&self) -> &[Terminal]
        ensures { result.now ≡ plain_words self.now }
    {
        &self.terminals[..self.count]
    }

    /// The words and one more, if there is room.
    pub(crate) fn with(self, word: Terminal) -> Option<Words>
        ensures longer { IfSome result (λ longer. plain_words longer ≡ plain_words self ++ word ∷ []) }
        ensures full { IsNone result → length (plain_words self) ≡ 5 }
    {
        if self.count < MOST_WORDS {
            let mut terminals = self.terminals;
            terminals[self.count] = word;
            Some(Words {
                count: self.count + 1,
                terminals,
            })
        } else {
            None
        }
    }
}
