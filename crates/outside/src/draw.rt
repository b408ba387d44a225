ghost use Rattle.std.specs.Prelude.{◌≡◌, ℕ, List, ◌∷◌, [], Option, false, slice_index};
ghost use Rattle.outside.specs.Draw.{Gives, told, next_place, is_dry};

/// A source of words that nobody can guess.
pub trait Draw {
    // the words that it gave, in order, for as long as it tells them
    ghost given: { Self → Option (List ℕ) };

    /// Draws a word.
    fn word(&mut self) -> u64
        ensures { Gives (given self.old) (given self.new) (result ∷ []) };
}

/// Words that were fixed before, and zeros once they are used up. It tells its words while they last.
#[derive(Debug, Drop)]
pub struct MemDraw {
    /// The words to give.
    pub words: Vec<u64>,
    /// How many of them it gave.
    pub at: usize,
    /// Whether a word was drawn once they were used up.
    pub dry: bool,
}

impl MemDraw {
    /// A draw that gives these words in turn.
    pub fn new(words: Vec<u64>) -> MemDraw
        ensures { (result.words ≡ words) × (result.at ≡ 0) × (result.dry ≡ false) }
    {
        MemDraw {
            words,
            at: 0,
            dry: false,
        }
    }
}

impl Draw for MemDraw {
    ghost given = { λ d. told d.words.items d.at d.dry };

    fn word(&mut self) -> u64
        ensures told { Gives (told self.old.words.items self.old.at self.old.dry) (told self.new.words.items self.new.at self.new.dry) (result ∷ []) }
        ensures words { self.new.words ≡ self.old.words }
        ensures next { result ≡ slice_index self.old.words.items self.old.at }
        ensures at { self.new.at ≡ next_place self.old.words.items self.old.at }
        ensures dry { self.new.dry ≡ is_dry self.old.words.items self.old.at self.old.dry }
    {
        match self.words.get(self.at) {
            Some(word) => {
                self.at += 1;
                *word
            }
            None => {
                self.dry = true;
                0
            }
        }
    }
}
