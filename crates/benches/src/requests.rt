ghost use Rattle.std.specs.Prelude.{◌≡◌, ◌<◌, ◌^◌, true};
ghost use Rattle.store_model.specs.History.{newest};
ghost use Rattle.store_model.specs.State.{State};
ghost use Rattle.store_world.specs.Store.{Stands};

use etcd_types::{
    Answer, Bytes, KeyRange, List, NoMemory, Op, PutAsk, RangeAsk, Request, Sort, TxnAsk, WatchAsk,
};
use std::alloc::Global;
use std::io;
use store_world::Store;

/// How often a watch is pushed.
pub const PUSHES: u64 = 10_000;

const MOST_REVISIONS: u64 = 1_000_000_000_000;

/// A store with so many keys.
#[derive(Debug, Drop)]
pub struct Bench {
    alloc: Global,
    store: Store,
    keys: u64,
}

impl Bench {
    pub fn new(alloc: Global, keys: u64) -> io::Result<Bench> {
        let Ok(store) = Store::new(alloc, 1) else {
            return Err(io::ErrorKind::OutOfMemory.into());
        };
        Ok(Bench { alloc, store, keys })
    }

    /// The number below the count of keys that comes so late: following ones are far from one another.
    fn mixed(&self, number: u64) -> u64 {
        number.wrapping_mul(7_919_993) % self.keys.max(1)
    }

    /// The key of a number in ten digits.
    fn key(&self, number: u64) -> io::Result<Bytes> {
        let mut digits: Vec<u8> = Vec::with_capacity(self.alloc, 10)?;
        let mut unit: u64 = 1_000_000_000;
        for _ in 0..10 {
            let digit = (number / unit.max(1)) % 10;
            digits.push(48 + digit as u8)?;
            unit /= 10;
        }
        Ok(Bytes::from_vec(digits))
    }

    fn put_ask(&self, number: u64, lease: u64) -> io::Result<PutAsk> {
        Ok(PutAsk {
            key: self.key(self.mixed(number))?,
            value: Bytes::from_vec(Vec::from_slice(self.alloc, &[120; 100])?),
            lease,
            prev_kv: false,
            ignore_lease: false,
        })
    }

    fn range_ask(&self, key: Bytes, end: Bytes) -> RangeAsk {
        RangeAsk {
            range: KeyRange { key, end },
            revision: 0,
            limit: 0,
            serializable: false,
            keys_only: false,
            count_only: false,
            sort: Sort {
                order: 0,
                target: 0,
                min_mod: 0,
                max_mod: 0,
                min_create: 0,
                max_create: 0,
            },
        }
    }

    fn get_ask(&self, number: u64) -> io::Result<RangeAsk> {
        let end = Bytes::from_vec(Vec::new(self.alloc));
        Ok(self.range_ask(self.key(self.mixed(number))?, end))
    }

    /// What each put makes beside the store.
    pub fn make_key(&self, number: u64) -> io::Result<()> {
        self.put_ask(number, 0)?;
        Ok(())
    }

    pub fn put(&mut self, number: u64, lease: u64) -> io::Result<()> {
        let ask = Request::Put(self.put_ask(number, lease)?);
        if self.has_room() {
            done(self.store.execute(&ask))?;
        }
        Ok(())
    }

    pub fn get(&mut self, number: u64) -> io::Result<()> {
        let ask = Request::Range(self.get_ask(number)?);
        if self.has_room() {
            done(self.store.execute(&ask))?;
        }
        Ok(())
    }

    pub fn range(&mut self, number: u64) -> io::Result<()> {
        let first = self.mixed(number);
        let key = self.key(first)?;
        let end = self.key(first.saturating_add(100))?;
        let ask = Request::Range(self.range_ask(key, end));
        if self.has_room() {
            done(self.store.execute(&ask))?;
        }
        Ok(())
    }

    /// Five puts of keys that follow, and five gets.
    pub fn transact(&mut self, number: u64) -> io::Result<()> {
        let mut success = List::new(self.alloc);
        for further in 0..5 {
            let number = number.wrapping_add(further);
            let put = Op::Put(self.put_ask(number, 0)?);
            let get = Op::Range(self.get_ask(number)?);
            if success.push(put).is_err() || success.push(get).is_err() {
                return Err(io::ErrorKind::OutOfMemory.into());
            }
        }
        let ask = Request::Txn(TxnAsk {
            compare: List::new(self.alloc),
            success,
            failure: List::new(self.alloc),
        });
        if self.has_room() {
            done(self.store.execute(&ask))?;
        }
        Ok(())
    }

    pub fn grant(&mut self, lease: u64) -> io::Result<()> {
        let ask = Request::Grant { ttl: 60, lease };
        if self.has_room() {
            done(self.store.execute(&ask))?;
        }
        Ok(())
    }

    pub fn revoke(&mut self, lease: u64) -> io::Result<()> {
        let ask = Request::Revoke { lease };
        if self.has_room() {
            done(self.store.execute(&ask))?;
        }
        Ok(())
    }

    /// Opens a watch of all keys.
    pub fn open_watch(&mut self) -> io::Result<()> {
        let ask = WatchAsk {
            range: KeyRange {
                key: Bytes::from_vec(Vec::from_slice(self.alloc, &[0])?),
                end: Bytes::from_vec(Vec::from_slice(self.alloc, &[0])?),
            },
            start: 0,
            no_put: false,
            no_delete: false,
            prev_kv: false,
            progress: false,
        };
        if self.store.open_watch(1, &ask).is_err() {
            return Err(io::ErrorKind::OutOfMemory.into());
        }
        self.push()
    }

    /// Pushes what comes next on the watch, where there is something.
    pub fn push(&mut self) -> io::Result<()> {
        let _item = self.store.push(1);
        Ok(())
    }

    /// Compacts at the newest revision.
    pub fn compact(&mut self) -> io::Result<()> {
        let newest = self.store.newest();
        done(self.store.compact(newest))
    }

    pub fn kept(&self) -> u64 {
        self.store.kept()
    }

    fn has_room(&self) -> bool
        ensures { result ≡ true → (s : State) → Stands self.now.store s → newest s.history < 2 ^ 63 }
    {
        self.store.newest() < MOST_REVISIONS
    }
}

fn done(answer: Result<Answer, NoMemory>) -> io::Result<()> {
    match answer {
        Ok(_) => Ok(()),
        Err(_) => Err(io::ErrorKind::OutOfMemory.into()),
    }
}
