use crate::copies::equal_copies;
use crate::keys::{contained, one, order, overlapping, put};
use etcd_types::{Answer, List, Request, WatchItem};
use std::alloc::Global;
use table_rows::{Wrong, parts, read_text};

/// The values that the rows so far have named.
#[derive(Drop)]
pub struct Values {
    requests: List<Request>,
    answers: List<Answer>,
    items: List<WatchItem>,
    alloc: Global,
}

impl Values {
    pub fn new(alloc: Global) -> Values {
        Values {
            requests: List::new(alloc),
            answers: List::new(alloc),
            items: List::new(alloc),
            alloc,
        }
    }

    /// What comes of a row's case.
    pub fn try_row(&mut self, case: &str) -> Result<String, Wrong> {
        let alloc = self.alloc;
        let (kind, case) = parts(case, " ")?;
        match kind {
            "order" => order(alloc, case),
            "one" => one(alloc, case),
            "contains" => contained(alloc, case),
            "overlaps" => overlapping(alloc, case),
            "put" => put(alloc, case),
            "request" => {
                let request: Request = read_text(alloc, case)?;
                let copy = request.copy(alloc)?;
                self.requests.push(request)?;
                equal_copies(alloc, &self.requests, &copy)
            }
            "answer" => {
                let answer: Answer = read_text(alloc, case)?;
                let copy = answer.copy(alloc)?;
                self.answers.push(answer)?;
                equal_copies(alloc, &self.answers, &copy)
            }
            "item" => {
                let item: WatchItem = read_text(alloc, case)?;
                let copy = item.copy(alloc)?;
                self.items.push(item)?;
                equal_copies(alloc, &self.items, &copy)
            }
            _ => Err(Wrong::Word),
        }
    }
}
