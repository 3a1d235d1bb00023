//! The registries of all tenants.

ghost use Rattle.std.specs.Prelude.{◌≡◌, ◌≢◌, false, true, Ok, Err, IfOk, IfErr, OnErr, map, option_map};
ghost use Rattle.std.specs.List.{list_all};
ghost use Rattle.definitions.specs.Caches.{is_capacity};
ghost use Rattle.definitions.specs.Patterns.{regular_search};
ghost use Rattle.definitions.specs.Services.{IsCallAnswer, CallCourse};
ghost use Rattle.definitions.specs.Tenants.{new_server, empty_registries};
ghost use Rattle.definition_laws.specs.Laws.{IsRefused};
ghost use Rattle.definition_laws.specs.Services.{AreAllKept};
ghost use Rattle.faults.specs.View.{fault_view};
ghost use Rattle.linker.specs.ListedDocuments.{listed_documents};
ghost use Rattle.requests.specs.Views.{request_view, reply_view};
ghost use Rattle.tenants_file.specs.Tenants.{tenant_view};
ghost use Rattle.tenant_hub.specs.Calls.{call_view};
ghost use Rattle.tenant_hub.specs.Hubs.{cache_capacity, hub_view};
ghost use Rattle.tenant_hub.specs.KeyedRegistries.{keyed_view, new_registry, position_of};
ghost use Rattle.tenant_hub.specs.PutBack.{IsRestored, stored_texts_of};
ghost use Rattle.tenant_hub.specs.Isolation.{HaveOwnCourses, HaveOwnReplies, RefuseUnknownKeys};
ghost use Rattle.tenant_hub.specs.RefusedServers.{IsRefusedBatch, IsRefusedServer, batch_view, given_library};
ghost use Rattle.tenant_hub.specs.RegisteredDocuments.{is_registered};
ghost use Rattle.tenant_hub.specs.ServedBundles.{AnswersAlone};

use crate::answering::{lacks_room, position_of};
use crate::keyed_registry::KeyedRegistry;
use crate::workspace::Workspace;
use definition_laws::{
    courses_go_on, tenants_have_their_courses, tenants_have_their_replies,
    unknown_keys_stay_unknown,
};
use linker::ListSource;
use requests::{Fault, Reply, Request};
use std::alloc::{AllocError, Global};
use std::rc::Rc;
use tenant_documents::library_of;
use tenants_file::{Tenant, server_fault};

/// The registries of all tenants, over one library, and one cache of compiled documents that they share. No reply depends
/// on what the cache keeps.
///
/// Contracts see them as the definitions' list of registries with their keys, by `hub_view`, and how many documents the
/// cache may keep by `cache_capacity`.
#[derive(Drop)]
pub struct Hub {
    registries: Vec<KeyedRegistry>,
    workspace: Workspace,
}

impl Hub {
    /// A registry without documents for each tenant, over the library that a batch gives, if there is one: its documents are seen by
    /// every tenant, and no request changes them.
    ///
    /// The first of these faults is answered: `BadCapacity` where the capacity is outside 1 to 4096, `TooManyTenants` above
    /// 64 tenants, `BadTenants` where a key isn't 1 to 64 characters from 0x21 to 0x7E, `DuplicateTenant` where two tenants
    /// have one key. Then come those of the batch, the first of these: `TooLarge` above 1,048,576 bytes, `BadJson`, `BadNumber`,
    /// `BadBatch`; of each entry in turn `BadUri`, those of a scan and `BadPattern`; `SameDocument` with the least canonical URI
    /// that two entries have; `Taken` with the least resource URI that two of its documents have. `NoRoom` may take the place of
    /// any answer, and `BadPattern` may be for a pattern that can be read and is too big once it is built.
    pub fn new(
        alloc: Global,
        tenants: Vec<Tenant>,
        capacity: usize,
        library: Option<&[u8]>,
    ) -> Result<Hub, Fault>
        ensures ok { IfOk result (λ h. new_server (map tenant_view tenants.items) capacity
            (given_library (batch_view library.entry)) ≡ Ok (hub_view h)) }
        ensures err { IfErr result (λ f. f ≢ Fault.NoRoom
            → IsRefusedServer (map tenant_view tenants.items) capacity
            (batch_view library.entry) (fault_view f)) }
        ensures cache { IfOk result (λ h. cache_capacity h ≡ capacity) }
    {
        match server_fault(&tenants, capacity) {
            Some(fault) => Err(fault),
            None => over_library(alloc, tenants, capacity, read_library(alloc, library)?),
        }
    }

    /// How many compiled documents the cache may keep.
    pub fn cache_capacity(&self) -> usize
        ensures { result ≡ cache_capacity self.now }
    {
        self.workspace.cache.capacity()
    }

    /// Answers one request of the tenant with this key, by its own registry alone. A refused request changes nothing.
    ///
    /// Each registry stays within its quotas, and its documents and the library's stay without a fault, no two of them with
    /// a resource of one URI. A bundle that is replied (JSON Schema 2020-12 Core, section 9.3) answers alone: put under any
    /// URI into an empty registry that has room for it, and no library, it gets each instance the output that the tenant's
    /// registry gives it, byte for byte.
    ///
    /// `UnknownTenant` is for a key that no tenant has, and takes no memory; want of memory is answered as `NoRoom`.
    pub fn apply(&mut self, alloc: Global, key: &str, request: &Request<'_>) -> Reply
        ensures answer { IsCallAnswer regular_search (hub_view self.old)
            (key.now, request_view request.now) (reply_view result) (hub_view self.new) }
        ensures refused { IsRefused (reply_view result)
            → hub_view self.new ≡ hub_view self.old }
        ensures kept { AreAllKept regular_search (hub_view self.new) }
        ensures alone { AnswersAlone (hub_view self.old)
            (key.now, request_view request.now) (reply_view result) }
    {
        self.answer(alloc, key, request)
    }

    /// Takes a reply back that was told: the memory of an output is used for the next one. No reply depends on it.
    #[tactic(auto, unfolding(crate::specs::Hubs::hub_view))]
    pub fn reuse(&mut self, reply: Reply)
        ensures registries { hub_view self.new ≡ hub_view self.old }
        ensures cache { cache_capacity self.new ≡ cache_capacity self.old }
    {
        if let Reply::Output(output) = reply {
            self.workspace.evaluation.take_back(output);
        }
    }

    /// Answers requests of many tenants in turn, each with its tenant's key.
    ///
    /// Whatever the other tenants ask, a tenant's replies are a course of its own requests from its own registry; where
    /// none of them is refused for room, they are the replies to its own requests alone. The only error is `NoRoom`, and
    /// then nothing was applied.
    pub fn run(
        &mut self,
        alloc: Global,
        calls: &[(String, Request<'_>)],
    ) -> Result<Vec<Reply>, Fault>
        ensures course { IfOk result (λ rs. CallCourse regular_search (hub_view self.old)
            (map call_view calls.now) (map reply_view rs.items) (hub_view self.new)) }
        ensures own_courses { IfOk result (λ rs. HaveOwnCourses (hub_view self.old)
            (map call_view calls.now) (map reply_view rs.items) (hub_view self.new)) }
        ensures own_replies { IfOk result (λ rs. HaveOwnReplies (hub_view self.old)
            (map call_view calls.now) (map reply_view rs.items)) }
        ensures unknown { IfOk result (λ rs. RefuseUnknownKeys (hub_view self.old)
            (map call_view calls.now) (map reply_view rs.items)) }
        ensures room { IfErr result (λ f. f ≡ Fault.NoRoom) }
        ensures unchanged { OnErr result (hub_view self.new ≡ hub_view self.old) }
    {
        tenants_have_their_courses();
        tenants_have_their_replies();
        unknown_keys_stay_unknown();
        self.replies_of(alloc, calls)
    }

    /// Puts a document back into the registry of the tenant with this key, which held it before: under its base, with its
    /// compact text, which may be longer than the body of a request.
    ///
    /// It is judged as a put judges a document, and the reply is that of a put. The first of these faults is answered, and
    /// then nothing changes: `UnknownTenant`; `BadJson`, `BadNumber`; `TooLarge` for an array of more than 1,048,576
    /// elements; those of a put but for the body's. `NoRoom` may take the place of any answer but `UnknownTenant`, and
    /// `BadPattern` may be for a pattern that can be read and is too big once it is built.
    pub fn restore(&mut self, alloc: Global, key: &str, base: &str, text: &[u8]) -> Reply
        ensures restored { IsRestored (hub_view self.old) key.now base.now text.now
            (reply_view result) (hub_view self.new) }
        ensures kept { AreAllKept regular_search (hub_view self.new) }
    {
        let Some(position) = position_of(&self.registries, key) else {
            return Reply::Refused(Fault::UnknownTenant);
        };
        self.registries[position].restore(alloc, &mut self.workspace, base, text)
    }

    /// The base and the compact text of the document with this canonical URI that the tenant with this key has.
    pub fn stored(&self, key: &str, uri: &str) -> Option<(&str, &str)>
        ensures { option_map (λ t. (t.0.now, t.1.now)) result
            ≡ stored_texts_of (hub_view self.now) key.now uri.now }
    {
        match position_of(&self.registries, key) {
            Some(position) => self.registries[position].texts_of(uri),
            None => None,
        }
    }

    /// The tenants' keys, in the order of the tenants' file. The only error is want of memory.
    #[tactic(auto, unfolding(crate::specs::Hubs::hub_view))]
    pub fn keys(&self, alloc: Global) -> Result<Vec<&str>, AllocError>
        ensures { IfOk result (λ ks. map (λ k. k.now) ks.items
            ≡ map (λ k. k.key) (hub_view self.now)) }
    {
        let mut keys = Vec::with_capacity(alloc, self.registries.len())?;
        for registry in &self.registries {
            keys.push(registry.key.as_str())?;
        }
        Ok(keys)
    }

    /// The place of the tenant with this key in the tenants' file, counted from 0.
    pub fn place_of(&self, key: &str) -> Option<usize>
        ensures { result ≡ position_of key.now 0 self.now.registries.items }
    {
        position_of(&self.registries, key)
    }

    // Where memory runs out, what is kept for speed alone is given back and the request is answered once more.
    fn answer(&mut self, alloc: Global, key: &str, request: &Request<'_>) -> Reply
        ensures { IsCallAnswer regular_search (hub_view self.old)
            (key.now, request_view request.now) (reply_view result) (hub_view self.new) }
    {
        let reply = self.answer_once(alloc, key, request);
        if lacks_room(&reply) {
            self.give_back(alloc);
            self.answer_once(alloc, key, request)
        } else {
            reply
        }
    }

    fn answer_once(&mut self, alloc: Global, key: &str, request: &Request<'_>) -> Reply
        ensures { IsCallAnswer regular_search (hub_view self.old)
            (key.now, request_view request.now) (reply_view result) (hub_view self.new) }
    {
        match position_of(&self.registries, key) {
            Some(position) => self.registries[position].answer(alloc, &mut self.workspace, request),
            None => Reply::Refused(Fault::UnknownTenant),
        }
    }

    // Gives back the memory that is kept for speed alone, of every tenant.
    fn give_back(&mut self, alloc: Global)
        ensures { hub_view self.new ≡ hub_view self.old }
    {
        self.workspace.clear(alloc);
        let mut place = 0;
        while place < self.registries.len() {
            self.registries[place].unlink();
            place += 1;
        }
    }

    fn replies_of(
        &mut self,
        alloc: Global,
        calls: &[(String, Request<'_>)],
    ) -> Result<Vec<Reply>, Fault>
        ensures course { IfOk result (λ rs. CallCourse regular_search (hub_view self.old)
            (map call_view calls.now) (map reply_view rs.items) (hub_view self.new)) }
        ensures room { IfErr result (λ f. f ≡ Fault.NoRoom) }
        ensures unchanged { OnErr result (hub_view self.new ≡ hub_view self.old) }
    {
        courses_go_on();
        let mut replies = Vec::with_capacity(alloc, calls.len())?;
        for call in calls {
            let reply = self.apply(alloc, call.0.as_str(), &call.1);
            match replies.push(reply) {
                Ok(()) => {}
                Err(_) => unreachable!(),
            }
        }
        Ok(replies)
    }
}

// The library that the batch gives, if there is one; else it has no documents.
fn read_library(alloc: Global, batch: Option<&[u8]>) -> Result<ListSource, Fault>
    ensures ok { IfOk result
        (λ l. given_library (batch_view batch.entry) ≡ Ok (listed_documents l)) }
    ensures registered { IfOk result (λ l. list_all is_registered (listed_documents l) ≡ true) }
    ensures err { IfErr result
        (λ f. f ≢ Fault.NoRoom → IsRefusedBatch (batch_view batch.entry) (fault_view f)) }
{
    match batch {
        Some(batch) => library_of(alloc, batch),
        None => Ok(ListSource::new(alloc)),
    }
}

// Registries without documents beside this library, for tenants that a server isn't refused for.
fn over_library(
    alloc: Global,
    tenants: Vec<Tenant>,
    capacity: usize,
    library: ListSource,
) -> Result<Hub, Fault>
    requires { list_all is_registered (listed_documents library) ≡ true }
    ensures ok { IfOk result (λ h. hub_view h
        ≡ empty_registries (listed_documents library) (map tenant_view tenants.items)) }
    ensures err { IfErr result (λ f. f ≢ Fault.NoRoom → is_capacity capacity ≡ false) }
    ensures cache { IfOk result (λ h. cache_capacity h ≡ capacity) }
{
    let library = Rc::new(alloc, library)?;
    // Together they may reach as many documents as the cache keeps.
    let most_linked = capacity.checked_div(tenants.len()).unwrap_or(0);
    let registries = new_registries(alloc, tenants, &library, most_linked)?;
    let workspace = Workspace::new(alloc, capacity)?;
    Ok(Hub {
        registries,
        workspace,
    })
}

fn new_registries(
    alloc: Global,
    tenants: Vec<Tenant>,
    library: &Rc<ListSource>,
    most_linked: usize,
) -> Result<Vec<KeyedRegistry>, Fault>
    requires { list_all is_registered (listed_documents library.now.value) ≡ true }
    ensures ok { IfOk result (λ rs. map keyed_view rs.items
        ≡ map (λ t. new_registry (listed_documents library.now.value) (tenant_view t))
        tenants.items) }
    ensures err { IfErr result (λ f. f ≡ Fault.NoRoom) }
{
    let mut registries = Vec::with_capacity(alloc, tenants.len())?;
    for tenant in tenants {
        let library = library.clone()?;
        registries.push(KeyedRegistry::new(alloc, tenant, library, most_linked)?)?;
    }
    Ok(registries)
}
