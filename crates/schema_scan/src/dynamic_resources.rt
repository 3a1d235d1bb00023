//! Resources by the names of their dynamic anchors.

ghost use Rattle.std.specs.Prelude.{◌≡◌, ◌&&◌, ◌||◌, false, OnOk, map};
ghost use Rattle.std.specs.BTreeMap.{get_by_text};
ghost use Rattle.std.specs.BTreeSet.{contains_text};
ghost use Rattle.std.specs.List.{list_any};
ghost use Rattle.definitions.specs.Values.{Text, same_text};
ghost use Rattle.schema_scan.specs.DynamicResources.{has_resource};
ghost use Rattle.schema_table.specs.Gathering.{anchor_mark};
ghost use Rattle.schema_table.specs.Lookups.{has_dynamic_mark};

use schema_table::Anchor;
use std::alloc::{AllocError, Global};
use std::collections::{BTreeMap, BTreeSet};

/// Adds the URI of each dynamic anchor's resource to those of the anchor's name.
pub(crate) fn add_resources(
    alloc: Global,
    resources: &mut BTreeMap<String, BTreeSet<String>>,
    anchors: &[Anchor],
) -> Result<(), AllocError>
    ensures { OnOk result ((u n : Text)
        → has_resource resources.new u n
        ≡ (has_resource resources.old u n
        || list_any (has_dynamic_mark u n) (map anchor_mark anchors.now))) }
{
    for anchor in anchors {
        add_resource(alloc, resources, anchor)?;
    }
    Ok(())
}

fn add_resource(
    alloc: Global,
    resources: &mut BTreeMap<String, BTreeSet<String>>,
    anchor: &Anchor,
) -> Result<(), AllocError>
    ensures { OnOk result ((u n : Text)
        → has_resource resources.new u n
        ≡ (has_resource resources.old u n || has_dynamic_mark u n (anchor_mark anchor.now))) }
{
    if anchor.dynamic {
        add_uri(
            alloc,
            resources,
            anchor.resource.as_str(),
            anchor.name.as_str(),
        )
    } else {
        Ok(())
    }
}

fn add_uri(
    alloc: Global,
    resources: &mut BTreeMap<String, BTreeSet<String>>,
    uri: &str,
    name: &str,
) -> Result<(), AllocError>
    ensures { OnOk result ((u n : Text)
        → has_resource resources.new u n
        ≡ (has_resource resources.old u n
        || (same_text u uri.now && same_text n name.now))) }
{
    let mut uris = take_uris(alloc, resources, name);
    uris.insert(String::from_str(alloc, uri)?)?;
    resources.insert(String::from_str(alloc, name)?, uris)?;
    Ok(())
}

// The URIs of a name, which are taken out.
fn take_uris(
    alloc: Global,
    resources: &mut BTreeMap<String, BTreeSet<String>>,
    name: &str,
) -> BTreeSet<String>
    ensures uris { (u : Text) → contains_text result u ≡ has_resource resources.old u name.now }
    ensures others { (n : Text) → same_text n name.now ≡ false
        → get_by_text resources.new n ≡ get_by_text resources.old n }
{
    match resources.remove(name) {
        Some(uris) => uris,
        None => BTreeSet::new(alloc),
    }
}
