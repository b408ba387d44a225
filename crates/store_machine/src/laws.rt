ghost use Rattle.store_machine.specs.Standing.{StandForShops};

/// A law: for each machine there is a shop that it represents.
pub fn machines_stand_for_shops()
    ensures { StandForShops }
{}
