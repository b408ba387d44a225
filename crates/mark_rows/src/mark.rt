ghost use Rattle.std.specs.Prelude.{◌≡◌, [], ◌∷◌, get_or};
ghost use Rattle.std.specs.Ordering.{nat_cmp};
ghost use Rattle.std.specs.Cmp.Lexicographic.{slice_cmp};

use std::cmp::Ordering;
use std::marker::Model;

/// A kind, a number within the kind and a ticket: marks are compared by the kind, then by the number, then by the ticket. Contracts see
/// the list of the three.
#[derive(Debug, Drop)]
pub struct Mark {
    kind: u64,
    number: u64,
    ticket: u64,
}

impl Model for Mark {
    ghost use Rattle.std.specs.Prelude.{List, ℕ, [], ◌∷◌};

    ghost Value = { List ℕ };

    ghost view = { λ m. m.kind ∷ m.number ∷ m.ticket ∷ [] };
}

impl Mark {
    /// The mark of these three.
    pub fn new(kind: u64, number: u64, ticket: u64) -> Mark
        ensures { result ≡ kind ∷ number ∷ ticket ∷ [] }
    {
        Mark {
            kind,
            number,
            ticket,
        }
    }

    /// Its kind.
    pub fn kind(&self) -> u64
        ensures { result ≡ get_or self.now 0 0 }
    {
        self.kind
    }

    /// Its number within the kind.
    pub fn number(&self) -> u64
        ensures { result ≡ get_or self.now 1 0 }
    {
        self.number
    }

    /// Which of the two comes first.
    pub fn compare(&self, other: &Mark) -> Ordering
        ensures { result ≡ slice_cmp nat_cmp self.now other.now }
    {
        self.kind.cmp(&other.kind).then(
            self.number
                .cmp(&other.number)
                .then(self.ticket.cmp(&other.ticket)),
        )
    }
}
