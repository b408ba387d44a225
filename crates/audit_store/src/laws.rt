ghost use Rattle.audit_store.specs.Store.{StandForStates, StatesAgree};

/// A law: for each store there is a state that it stands for.
pub fn stores_stand_for_states()
    ensures { StandForStates }
{}

/// A law: a store may stand for many states, which agree on the newest revision and on how many members there are, one at
/// the least.
pub fn states_of_a_store_agree()
    ensures { StatesAgree }
{}
