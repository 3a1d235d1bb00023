//! The keys of tenants.

ghost use Rattle.std.specs.Prelude.{◌≡◌, map, string_bytes};
ghost use Rattle.std.specs.List.{list_any, list_all};
ghost use Rattle.definitions.specs.Bytes.{is_visible};
ghost use Rattle.definitions.specs.Lists.{has_repeat};
ghost use Rattle.definitions.specs.Tenants.{is_key};
ghost use Rattle.definitions.specs.Values.{same_text};

use crate::tenants::Tenant;

/// How many characters a key may have.
const MOST_CHARACTERS: usize = 64;

// Whether each key is 1 to 64 visible characters of ASCII.
pub(crate) fn are_keys(tenants: &[Tenant]) -> bool
    ensures { result ≡ list_all (λ t. is_key (string_bytes t.key)) tenants.now }
{
    tenants.iter().all(|tenant| is_key(tenant.key.as_str()))
}

fn is_key(key: &str) -> bool
    ensures { result ≡ is_key key.now }
{
    !key.is_empty() && key.len() <= MOST_CHARACTERS && are_visible(key.as_bytes())
}

fn are_visible(bytes: &[u8]) -> bool
    ensures { result ≡ list_all is_visible bytes.now }
{
    bytes.iter().all(|byte| is_visible(*byte))
}

fn is_visible(byte: u8) -> bool
    ensures { result ≡ is_visible byte }
{
    byte.is_ascii_graphic()
}

// Whether some two tenants have one key.
pub(crate) fn have_repeat(tenants: &[Tenant]) -> bool
    ensures { result ≡ has_repeat same_text (map (λ t. string_bytes t.key) tenants.now) }
{
    for (index, tenant) in tenants.iter().enumerate() {
        if have_key(&tenants[index + 1..], tenant.key.as_str()) {
            return true;
        }
    }
    false
}

fn have_key(tenants: &[Tenant], key: &str) -> bool
    ensures { result ≡ list_any (λ t. same_text key.now (string_bytes t.key)) tenants.now }
{
    tenants.iter().any(|tenant| key == tenant.key.as_str())
}
