use etcd_types::Bytes;

/// What is wanted of each way in which a case is tried, and what first came otherwise.
#[derive(Debug, Drop)]
pub struct Outcome {
    wanted: Bytes,
    differing: Option<String>,
}

impl Outcome {
    pub fn new(wanted: Bytes) -> Outcome {
        Outcome {
            wanted,
            differing: None,
        }
    }

    pub fn wanted(&self) -> &[u8] {
        self.wanted.as_slice()
    }

    /// Takes note of what came of one way.
    pub fn compare(&mut self, came: String) {
        let same = came.as_bytes() == self.wanted.as_slice();
        self.note(same, came);
    }

    /// Takes note of what came of one way, and whether it is as it has to be.
    pub fn note(&mut self, right: bool, came: String) {
        if !right && self.differing.is_none() {
            self.differing = Some(came);
        }
    }

    /// What first came otherwise.
    pub fn differing(&self) -> Option<&str> {
        match &self.differing {
            None => None,
            Some(came) => Some(came.as_str()),
        }
    }
}
