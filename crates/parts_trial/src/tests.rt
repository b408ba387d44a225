mod acquires;
mod clocks;
mod draws;
mod hub;
mod leases;
mod memory;
mod rows;
