//! How much a store grows by one step.
ghost use Rattle.text_laws.specs.Growth.Growth.{RecordsWerePut, StepsGrowLittle};

/// A range has no more records than were put; so each request makes no more changes than it runs puts and deletions, times what was put.
pub fn stores_grow_little()
    ensures records { RecordsWerePut }
    ensures steps { StepsGrowLittle }
{}
