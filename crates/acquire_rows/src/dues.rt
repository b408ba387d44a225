ghost use Rattle.std.specs.Prelude.{◌≡◌, ◌<◌, ◌≤◌, [], ◌∷◌, None, Some, IsTrue, IfOk, IfErr, OnOk, OnErr, length};
ghost use Rattle.std.specs.Ordering.{nat_cmp};
ghost use Rattle.std.specs.Cmp.Lexicographic.{slice_cmp};
ghost use Rattle.std.specs.Option.{option_copied};
ghost use Rattle.keyed_rows.specs.Places.{IsPlace, IsGap};
ghost use Rattle.proxy_model.specs.Keyed.{at, with_at, is_in_order};
ghost use Rattle.acquire_rows.specs.Marks.{first_of};

use etcd_types::{Bytes, NoMemory};
use std::alloc::Global;
use std::cmp::Ordering;
use std::marker::Model;

/// Where the due acquire of a key stands: by the step since which it is due, then by the ticket of its read, then by the key. Contracts
/// see the list of these, and beside it the key.
#[derive(Debug, Drop)]
struct Due {
    since: u64,
    ticket: u64,
    key: Bytes,
}

impl Model for Due {
    ghost use Rattle.std.specs.Prelude.{List, ℕ, ◌∷◌};

    ghost Value = { List ℕ × List ℕ };

    ghost view = { λ d. (d.since ∷ d.ticket ∷ d.key, d.key) };
}

impl Due {
    /// Whether it comes before what is due since this step, for this ticket and of this key, or behind it.
    fn compare(&self, since: u64, ticket: u64, key: &Bytes) -> Ordering
        ensures { result ≡ slice_cmp nat_cmp self.now.0 (since ∷ ticket ∷ key.now) }
    {
        self.since
            .cmp(&since)
            .then(self.ticket.cmp(&ticket).then(self.key.cmp(key)))
    }
}

/// The keys whose acquires are due, in the order in which these are sent.
#[derive(Debug, Drop)]
pub(crate) struct Dues {
    rows: Vec<Due>,
}

impl Model for Dues {
    ghost use Rattle.std.specs.Prelude.{List, ℕ, IsTrue};
    ghost use Rattle.proxy_model.specs.Keyed.{Keyed, is_in_order};

    ghost Value = { Keyed (List ℕ) };

    ghost view = { λ d. d.rows.items };

    ghost invariant = { λ d. IsTrue (is_in_order d.rows.items) };
}

impl Dues {
    /// No keys. It takes no memory.
    pub(crate) fn new(alloc: Global) -> Dues
        ensures { result ≡ [] }
    {
        Dues {
            rows: Vec::new(alloc),
        }
    }

    /// The key whose acquire is sent first.
    pub(crate) fn first(&self) -> Option<&Bytes>
        ensures first { option_copied result ≡ first_of self.now }
        ensures in_order { IsTrue (is_in_order self.now) }
    {
        match self.rows.as_slice() {
            [due, ..] => Some(&due.key),
            [] => None,
        }
    }

    /// Where the key stands that is due since this step and for this ticket, or where it would go.
    fn place(&self, since: u64, ticket: u64, key: &Bytes) -> Result<usize, usize>
        ensures found { IfOk result (IsPlace self.now (since ∷ ticket ∷ key.now)) }
        ensures in_range { IfOk result (λ place. place < length self.now) }
        ensures up_to_end { IfErr result (λ gap. gap ≤ length self.now) }
        ensures absent { IfErr result (IsGap self.now (since ∷ ticket ∷ key.now)) }
    {
        self.rows.binary_search_by(
            |due: &Due| -> Ordering
                ensures { result ≡ slice_cmp nat_cmp due.now.0 (since ∷ ticket ∷ key.entry.now) }
            { due.compare(since, ticket, key) },
        )
    }

    /// The key, which wasn't, is due since this step and for this ticket. Where memory was wanting all is as before.
    pub(crate) fn add(&mut self, since: u64, ticket: u64, key: Bytes) -> Result<(), NoMemory>
        requires { at self.old (since ∷ ticket ∷ key) ≡ None }
        ensures ok { OnOk result (self.new ≡ with_at self.old (since ∷ ticket ∷ key) (Some key)) }
        ensures err { OnErr result (self.new ≡ self.old) }
    {
        let Err(gap) = self.place(since, ticket, &key) else {
            unreachable!()
        };
        self.rows.insert(gap, Due { since, ticket, key })?;
        Ok(())
    }

    /// The key isn't due any more since this step and for this ticket. It takes no memory.
    pub(crate) fn remove(&mut self, since: u64, ticket: u64, key: &Bytes)
        ensures { self.new ≡ with_at self.old (since ∷ ticket ∷ key.now) None }
    {
        if let Ok(at) = self.place(since, ticket, key) {
            drop(self.rows.remove(at));
        }
    }

    /// No keys any more. It takes no memory.
    pub(crate) fn clear(&mut self)
        ensures { self.new ≡ [] }
    {
        self.rows.clear();
    }
}
