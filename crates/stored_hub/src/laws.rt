//! That a new server has no documents yet.

ghost use Rattle.stored_hub.specs.NewServers.{NewServersHaveNoDocuments};

/// The registries of a new server have no documents of their own: a store can be opened for them.
pub fn new_servers_have_no_documents()
    ensures { NewServersHaveNoDocuments }
{}
