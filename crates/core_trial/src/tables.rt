use crate::proxies::Proxies;
use crate::stores::Stores;
use crate::watches::Watches;
use crate::writes::Writes;
use proxy_core::Core;
use std::alloc::Global;
use table_rows::Wrong;

/// What the steps of a table are taken on.
#[derive(Clone, Copy, Debug, PartialEq, Eq)]
pub enum Table {
    Stores,
    Proxies,
    Writes,
    Watches,
}

impl Table {
    /// The table of this name.
    pub fn named(name: &str) -> Result<Table, Wrong> {
        match name {
            "stores" => Ok(Table::Stores),
            "proxies" => Ok(Table::Proxies),
            "writes" => Ok(Table::Writes),
            "watches" => Ok(Table::Watches),
            _ => Err(Wrong::Word),
        }
    }

    pub fn name(self) -> &'static str {
        match self {
            Table::Stores => "stores",
            Table::Proxies => "proxies",
            Table::Writes => "writes",
            Table::Watches => "watches",
        }
    }
}

/// What the steps of the tables are taken on, each from its own beginning.
#[derive(Drop)]
pub struct Tables {
    stores: Stores,
    proxies: Proxies<Core>,
    writes: Writes,
    watches: Watches,
}

impl Tables {
    pub fn new(alloc: Global) -> Result<Tables, Wrong> {
        Ok(Tables {
            stores: Stores::new(alloc)?,
            proxies: Proxies::new(alloc)?,
            writes: Writes::new(alloc)?,
            watches: Watches::new(alloc),
        })
    }

    /// Takes a step.
    pub fn step(&mut self, table: Table, line: &str) -> Result<(), Wrong> {
        match table {
            Table::Stores => self.stores.step(line),
            Table::Proxies => self.proxies.step(line),
            Table::Writes => self.writes.step(line),
            Table::Watches => self.watches.step(line),
        }
    }

    /// What came of the last step.
    pub fn told(&self, table: Table) -> &str {
        match table {
            Table::Stores => self.stores.told(),
            Table::Proxies => self.proxies.told(),
            Table::Writes => self.writes.told(),
            Table::Watches => self.watches.told(),
        }
    }
}
