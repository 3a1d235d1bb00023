//! The text of a reference's parts (RFC 3986, section 5.3).

ghost use Rattle.std.specs.Prelude.{◌≡◌, ◌++◌, option_map, IfOk, OnOk, codes, string_bytes};
ghost use Rattle.definitions.specs.Uris.{recompose, led_by, ended_by};

use crate::parts::Parts;
use std::alloc::{AllocError, Global};

/// The text of the parts (RFC 3986, section 5.3). The only error is want of memory.
pub fn recompose(alloc: Global, parts: &Parts) -> Result<String, AllocError>
    ensures { IfOk result (λ s. string_bytes s ≡ recompose parts.now) }
{
    let mut text = String::new(alloc);
    push_ended(&mut text, parts.scheme, ":")?;
    push_led(&mut text, "//", parts.authority)?;
    text.push_str(parts.path)?;
    push_led(&mut text, "?", parts.query)?;
    push_led(&mut text, "#", parts.fragment)?;
    Ok(text)
}

// Appends the part, where there is one, and the sign after it.
fn push_ended(text: &mut String, part: Option<&str>, sign: &str) -> Result<(), AllocError>
    ensures { OnOk result (string_bytes text.new
        ≡ string_bytes text.old ++ ended_by (option_map (λ t. t.now) part.entry) sign.now) }
{
    if let Some(part) = part {
        text.push_str(part)?;
        text.push_str(sign)?;
    }
    Ok(())
}

// Appends the sign, and the part after it, where there is one.
fn push_led(text: &mut String, sign: &str, part: Option<&str>) -> Result<(), AllocError>
    ensures { OnOk result (string_bytes text.new
        ≡ string_bytes text.old ++ led_by sign.now (option_map (λ t. t.now) part.entry)) }
{
    if let Some(part) = part {
        text.push_str(sign)?;
        text.push_str(part)?;
    }
    Ok(())
}
