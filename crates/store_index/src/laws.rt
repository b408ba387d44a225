ghost use Rattle.store_index.specs.Listings.{ListingsAreRanges};

/// A law: what the entries of the map show of a range is what a history leaves of it, where they read as the history does.
pub fn listings_are_ranges()
    ensures { ListingsAreRanges }
{}
