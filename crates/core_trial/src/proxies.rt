use crate::events::{event, settings};
use crate::proxy::Proxy;
use crate::told::{tell, tell_value};
use std::alloc::Global;
use table_rows::Wrong;
use text_words::{Words, is_word, read_bytes, read_number};

/// A proxy with its clock, and what came of the last step that was tried on it.
#[derive(Drop)]
pub struct Proxies<P: Proxy> {
    alloc: Global,
    proxy: P,
    now: u64,
    told: String,
}

impl<P: Proxy> Proxies<P> {
    pub fn new(alloc: Global) -> Result<Proxies<P>, Wrong> {
        let mut words = Words::of(b' ', b"1 ~ ~ 60");
        Ok(Proxies {
            alloc,
            proxy: P::started(alloc, settings(alloc, &mut words)?)?,
            now: 0,
            told: String::new(alloc),
        })
    }

    /// What came of the last step.
    pub fn told(&self) -> &str {
        self.told.as_str().trim_end()
    }

    /// Takes a step.
    pub fn step(&mut self, line: &str) -> Result<(), Wrong> {
        self.told = String::new(self.alloc);
        let mut words = Words::of(b' ', line.as_bytes());
        self.take_step(&mut words)?;
        words.end()?;
        Ok(())
    }

    fn take_step(&mut self, words: &mut Words) -> Result<(), Wrong> {
        let name = words.take()?;
        if is_word(name, "new") {
            self.begin(words)
        } else if is_word(name, "at") {
            self.now = read_number(words)?;
            Ok(())
        } else if is_word(name, "do") {
            self.happen(words)
        } else if is_word(name, "read") {
            self.pass_over(words)
        } else {
            self.take_look(name, words)
        }
    }

    /// A step that changes nothing, or an event whose outcome is told.
    fn take_look(&mut self, name: &[u8], words: &mut Words) -> Result<(), Wrong> {
        if is_word(name, "ready") {
            self.tell_ready()
        } else if is_word(name, "due") {
            let told = if self.proxy.is_due() { "yes" } else { "no" };
            self.told.push_str(told)?;
            Ok(())
        } else if is_word(name, "peek") {
            let key = read_bytes(self.alloc, words)?;
            tell_value(&mut self.told, self.proxy.held(&key, self.now))
        } else {
            self.tell_event(name, words)
        }
    }

    fn begin(&mut self, words: &mut Words) -> Result<(), Wrong> {
        self.proxy = P::started(self.alloc, settings(self.alloc, words)?)?;
        self.now = 0;
        Ok(())
    }

    fn tell_ready(&mut self) -> Result<(), Wrong> {
        match self.proxy.least_ready() {
            None => self.told.push_str("none")?,
            Some(ticket) => write!(self.told, "{ticket}")?,
        }
        Ok(())
    }

    fn tell_event(&mut self, name: &[u8], words: &mut Words) -> Result<(), Wrong> {
        let event = event(self.alloc, name, words)?;
        let came = self.proxy.stepped(event, self.now);
        let told = tell(&mut self.told, &came);
        drop(came);
        told
    }

    /// An event of which nothing is told.
    fn happen(&mut self, words: &mut Words) -> Result<(), Wrong> {
        let name = words.take()?;
        let event = event(self.alloc, name, words)?;
        drop(self.proxy.stepped(event, self.now));
        Ok(())
    }

    /// An event that doesn't happen.
    fn pass_over(&mut self, words: &mut Words) -> Result<(), Wrong> {
        let name = words.take()?;
        drop(event(self.alloc, name, words)?);
        Ok(())
    }
}
