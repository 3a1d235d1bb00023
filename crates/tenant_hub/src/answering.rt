//! What a tenant is answered by its own registry.

ghost use Rattle.std.specs.Prelude.{◌≡◌, ◌↔◌, true, IfOk, IsTrue, option_map, string_bytes};
ghost use Rattle.std.specs.List.{list_all};
ghost use Rattle.std.specs.Str.{is_utf8};
ghost use Rattle.bundle_laws.specs.Registered.{PutsText};
ghost use Rattle.definitions.specs.Patterns.{regular_search};
ghost use Rattle.definitions.specs.Registries.{documents_seen};
ghost use Rattle.definitions.specs.Runs.{IsAnswer};
ghost use Rattle.definitions.specs.Values.{same_text};
ghost use Rattle.linker.specs.ListedDocuments.{listed_documents};
ghost use Rattle.requests.specs.Views.{request_view, reply_view};
ghost use Rattle.tenants_file.specs.Tenants.{tenant_view};
ghost use Rattle.tenant_hub.specs.CachedLinks.{AreLinksOf};
ghost use Rattle.tenant_hub.specs.RegisteredDocuments.{is_registered};
ghost use Rattle.tenant_documents.specs.Registries.{registry_view};
ghost use Rattle.tenant_documents.specs.StoredTexts.{stored_texts};
ghost use Rattle.tenant_hub.specs.KeyedRegistries.{keyed_view, new_registry, position_of};

use crate::bundling::bundle_reply;
use crate::keyed_registry::KeyedRegistry;
use crate::links::Links;
use crate::validating::validation_reply;
use crate::workspace::Workspace;
use linker::ListSource;
use requests::{Fault, Reply, Request};
use std::alloc::{AllocError, Global};
use std::rc::Rc;
use tenant_documents::Registry;
use tenants_file::Tenant;

impl KeyedRegistry {
    // The registry of a tenant before its first request, whose links may reach so many documents.
    pub(crate) fn new(
        alloc: Global,
        tenant: Tenant,
        library: Rc<ListSource>,
        most_linked: usize,
    ) -> Result<KeyedRegistry, AllocError>
        requires { list_all is_registered (listed_documents library.value) ≡ true }
        ensures { IfOk result (λ k. keyed_view k
            ≡ new_registry (listed_documents library.value) (tenant_view tenant)) }
    {
        let links = Links::new(alloc, most_linked)?;
        Ok(KeyedRegistry {
            key: tenant.key,
            registry: Registry::new(library, tenant.documents, tenant.bytes, alloc),
            links,
        })
    }

    // Answers one request of the tenant.
    pub(crate) fn answer(
        &mut self,
        alloc: Global,
        workspace: &mut Workspace,
        request: &Request<'_>,
    ) -> Reply
        ensures key { string_bytes self.new.key ≡ string_bytes self.old.key }
        ensures answer { IsAnswer regular_search (registry_view self.old.registry)
            (request_view request.now) (reply_view result) (registry_view self.new.registry) }
    {
        answer_once(
            &mut self.registry,
            &mut self.links,
            alloc,
            workspace,
            request,
        )
    }

    // Lets its links go.
    pub(crate) fn unlink(&mut self)
        ensures { keyed_view self.new ≡ keyed_view self.old }
    {
        self.links.clear();
    }

    // The base and the compact text of the document with this canonical URI.
    pub(crate) fn texts_of(&self, uri: &str) -> Option<(&str, &str)>
        ensures { option_map (λ t. (t.0.now, t.1.now)) result
            ≡ stored_texts (registry_view self.now.registry) uri.now }
    {
        self.registry.texts_of(uri)
    }

    fn has_key(&self, key: &str) -> bool
        ensures { result ≡ same_text key.now (string_bytes self.now.key) }
    {
        key == self.key.as_str()
    }
}

// Whether memory ran out.
pub(crate) fn lacks_room(reply: &Reply) -> bool
    ensures { IsTrue result ↔ reply.now ≡ Reply.Refused Fault.NoRoom }
{
    matches!(reply, Reply::Refused(Fault::NoRoom))
}

// The text, which is UTF-8 as each is.
fn utf8_text(text: &str) -> &str
    ensures same { result.now ≡ text.now }
    ensures utf8 { is_utf8 text.now ≡ true }
{
    text
}

fn answer_once(
    registry: &mut Registry,
    links: &mut Links,
    alloc: Global,
    workspace: &mut Workspace,
    request: &Request<'_>,
) -> Reply
    requires { AreLinksOf (documents_seen (registry_view registry.old)) links.old }
    ensures answer { IsAnswer regular_search (registry_view registry.old)
        (request_view request.now) (reply_view result) (registry_view registry.new) }
    ensures linked { AreLinksOf (documents_seen (registry_view registry.new)) links.new }
    ensures text { PutsText (request_view request.now) }
{
    match request {
        Request::Put(uri, body) => {
            links.clear();
            registry.put(
                alloc,
                &mut workspace.scratch,
                &mut workspace.cache,
                utf8_text(uri.as_str()),
                body,
            )
        }
        Request::Delete(uri) => {
            links.clear();
            registry.delete(alloc, uri.as_str())
        }
        Request::Validate(uri, body) => {
            let mut source = registry.source(&mut workspace.cache);
            validation_reply(
                alloc,
                &mut workspace.scratch,
                &mut workspace.evaluation,
                links,
                &mut source,
                uri.as_str(),
                body,
            )
        }
        Request::Bundle(uri) => {
            let mut source = registry.source(&mut workspace.cache);
            bundle_reply(alloc, &mut source, uri.as_str())
        }
        Request::Batch(body) => {
            links.clear();
            registry.put_all(alloc, &mut workspace.scratch, &mut workspace.cache, body)
        }
    }
}

// The position of the tenant with this key.
pub(crate) fn position_of(registries: &[KeyedRegistry], key: &str) -> Option<usize>
    ensures { result ≡ position_of key.now 0 registries.now }
{
    for (position, registry) in registries.iter().enumerate() {
        if registry.has_key(key) {
            return Some(position);
        }
    }
    None
}
