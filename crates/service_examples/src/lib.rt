//! Servers of several tenants, from the tenants' file to the bytes of a connection, and what they stand on: the cache, bundles,
//! heads and replies. Tests alone, for the crates of the service.
#![tactic(auto)]

#[cfg(test)]
mod bundled_documents;
#[cfg(test)]
mod bundles;
#[cfg(test)]
mod document_facts;
#[cfg(test)]
mod documents_asked_again;
#[cfg(test)]
mod ended_connections;
#[cfg(test)]
mod handlers;
#[cfg(test)]
mod heads;
#[cfg(test)]
mod hub_connections;
#[cfg(test)]
mod libraries;
#[cfg(test)]
mod many_connections;
#[cfg(test)]
mod many_documents;
#[cfg(test)]
mod new_servers;
#[cfg(test)]
mod own_registries;
#[cfg(test)]
mod refused_requests;
#[cfg(test)]
mod registries;
#[cfg(test)]
mod replied_bundles;
#[cfg(test)]
mod sent_streams;
#[cfg(test)]
mod served_hubs;
#[cfg(test)]
mod served_networks;
#[cfg(test)]
mod served_streams;
#[cfg(test)]
mod several_tenants;
#[cfg(test)]
mod socket_connections;
#[cfg(test)]
mod stored_batches;
#[cfg(test)]
mod streams;
#[cfg(test)]
mod talks;
#[cfg(test)]
mod tenants;
#[cfg(test)]
mod texts;
#[cfg(test)]
mod whole_connections;
