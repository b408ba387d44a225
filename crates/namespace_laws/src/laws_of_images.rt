//! Theorems over whole scripts of several proxies on the store that they share: it is the image, under the namespace, of a store
//! of bare keys. Each stands on a public function with an empty body.
ghost use Rattle.namespace_laws.specs.Images.Laws.{StartsNamed, StepsStayNamed, JobsGoUnder};
ghost use Rattle.namespace_laws.specs.Images.Worlds.{ProxiesStayUnder, CallsGoUnder, StreamsGoUnder, StoresAreImages, AnswersAreImages, RepliesAreHeardBare};
ghost use Rattle.namespace_laws.specs.Images.Moves.{LinesMoveTheImage};
ghost use Rattle.namespace_laws.specs.Images.One.{ImagesTellTheirStores};

/// Whatever a proxy may still send has no empty key; so each request that it sends goes out under its namespace, with none.
pub fn calls_name_their_keys()
    ensures starts { StartsNamed }
    ensures steps { StepsStayNamed }
    ensures jobs { JobsGoUnder }
{}

/// Each proxy of every world has its namespace, and may send nothing with an empty key; so each call and each stream goes out under
/// the namespace, and no request of a call has an empty key.
pub fn worlds_speak_under_their_namespace()
    ensures proxies { ProxiesStayUnder }
    ensures calls { CallsGoUnder }
    ensures streams { StreamsGoUnder }
{}

/// For every script, the world's store is the image, under the namespace, of a store of bare keys that began empty, to which
/// nothing with an empty key was done; each line does to it what it does to that one, and tells the image of what that one tells; and
/// there is one such store.
pub fn stores_are_images()
    ensures begun { StoresAreImages }
    ensures goes_on { LinesMoveTheImage }
    ensures one { ImagesTellTheirStores }
{}

/// For every script, what an executed call was answered is the image of what the store of bare keys answered to the bare request; so a
/// proxy that hears a reply hears that one.
pub fn answers_are_images()
    ensures answers { AnswersAreImages }
    ensures heard { RepliesAreHeardBare }
{}
