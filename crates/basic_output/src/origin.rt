//! Where pointers of keywords begin.
#![tactic(auto, unfolding(crate::specs::PointerViews::origin_view))]

ghost use Rattle.std.specs.Prelude.{◌≡◌, ◌∷◌, ◌++◌, [], is_some, string_bytes, true, IfOk, IfSome};
ghost use Rattle.std.proofs.Props.{props};
ghost use Rattle.definitions.specs.Bytes.{number_sign};
ghost use Rattle.definitions.specs.Pointers.{fragment_text};
ghost use Rattle.locations.specs.Steps.{tokens};
ghost use Rattle.basic_output.specs.Pieces.{IsHead, head_text};

use crate::memory::is_kept;
use crate::tuning::HEAD_ROOM;
use crate::unit_text::{TextBuffer, are_unescaped, push_escaped};
use locations::{Step, push_fragment};
use std::alloc::{AllocError, Global};
use std::rc::Rc;

/// The beginning of a head.
const KEY: &str = "{\"absoluteKeywordLocation\":\"";

/// A schema that is entered otherwise than by a step from the keyword above it, as what a reference names is: the URI of
/// its resource, and the steps from that resource's root (JSON Schema 2020-12 Core, section 8.2). The locations of keywords
/// below it lead on from there, so that their text has a head that is written once.
///
/// Contracts see the URI and the pointer by `origin_view`.
#[derive(Debug, Drop)]
pub struct Origin<'a> {
    resource: &'a str,
    steps: Vec<Step<'a>>,
    // How the texts of units begin whose keywords stand below, where it is written.
    head: Option<String>,
    ghost is_head: { IfSome head (λ h. string_bytes h
        ≡ head_text (resource.now ++ (number_sign ∷ fragment_text (tokens steps.items)))) } by { Prim.hlevel props },
}

impl<'a> Origin<'a> {
    ghost use Rattle.basic_output.specs.PointerViews.{origin_view};

    /// The schema at these steps in the resource with this URI, whose text is written in memory that was kept, where it finds
    /// enough there. The only error is want of memory.
    #[inline(never)]
    pub fn within(
        memory: String,
        resource: &'a str,
        steps: Vec<Step<'a>>,
    ) -> Result<Origin<'a>, AllocError>
        ensures head { IfOk result (λ o. is_some o.head ≡ true) }
        ensures there { IfOk result
            (λ o. origin_view o ≡ (resource.entry.now, tokens steps.entry.items)) }
    {
        let head = Some(head_of(memory, resource, &steps)?);
        Ok(Origin {
            resource,
            steps,
            head,
        })
    }

    /// The schema at these steps in the resource with this URI, of which no text is written yet, however long it is. This takes
    /// no memory.
    pub fn unwritten(resource: &'a str, steps: Vec<Step<'a>>) -> Origin<'a>
        ensures { origin_view result ≡ (resource.entry.now, tokens steps.entry.items) }
    {
        Origin {
            resource,
            steps,
            head: None,
        }
    }

    /// The root of the resource with this URI, of which no text is written yet, however long it is. This takes no memory.
    pub fn root(alloc: Global, resource: &'a str) -> Origin<'a>
        ensures { origin_view result ≡ (resource.entry.now, []) }
    {
        Origin::unwritten(resource, Vec::new(alloc))
    }

    /// The memory that its text was written in, for the next origin, unless the text took more than 1,048,576 bytes.
    pub fn into_memory(self) -> String {
        let Origin { steps, head, .. } = self;
        match head {
            Some(text) if is_kept(text.capacity()) => text,
            _ => String::new(*steps.allocator()),
        }
    }

    /// The URI of the resource.
    pub fn resource(&self) -> &'a str
        ensures { result.now ≡ (origin_view self.now).0 }
    {
        self.resource
    }

    /// The steps from the resource's root.
    pub fn steps(&self) -> &[Step<'a>]
        ensures { tokens result.now ≡ (origin_view self.now).1 }
    {
        self.steps.as_slice()
    }

    /// Whether it is written how the texts of units begin whose keywords stand below.
    pub fn has_head(&self) -> bool
        ensures { result ≡ is_some self.now.head }
    {
        self.head.is_some()
    }

    /// This origin with its head written. The only error is want of memory. It is called apart, since few origins lack one.
    #[inline(never)]
    pub fn with_head(&self) -> Result<Rc<Origin<'a>>, AllocError>
        ensures head { IfOk result (λ o. is_some o.value.head ≡ true) }
        ensures same { IfOk result (λ o. origin_view o.value ≡ origin_view self.now) }
    {
        let alloc = *self.steps.allocator();
        let steps = Vec::from_slice(alloc, &self.steps)?;
        let written = Origin::within(String::new(alloc), self.resource, steps)?;
        Ok(Rc::new(alloc, written)?)
    }

    /// How these texts begin.
    #[inline(always)]
    pub fn head(&self) -> &str
        requires { is_some self.now.head ≡ true }
        ensures { IsHead (origin_view self.now) result.now }
    {
        match &self.head {
            Some(head) => head.as_str(),
            None => "",
        }
    }
}

// How the texts of units begin.
fn head_of(memory: String, uri: &str, steps: &[Step<'_>]) -> Result<String, AllocError>
    ensures { IfOk result (λ h. IsHead (uri.now, tokens steps.now) (string_bytes h)) }
{
    let mut head = memory;
    head.clear();
    head.reserve(HEAD_ROOM)?;
    head.push_str(KEY)?;
    head.push_str(uri)?;
    head.push_str("#")?;
    push_fragment(&mut head, steps)?;
    if are_unescaped(&head.as_bytes()[KEY.len()..]) {
        return Ok(head);
    }
    escaped_head(*head.allocator(), &head.as_str()[KEY.len()..])
}

// The head of a location that may need escapes in a string of JSON. It is called apart, since few URIs need any.
#[inline(never)]
fn escaped_head(alloc: Global, location: &str) -> Result<String, AllocError>
    ensures { IfOk result (λ h. string_bytes h ≡ head_text location.now) }
{
    let mut head = TextBuffer::new(alloc);
    push_escaped(&mut head, &mut String::new(alloc), KEY, location)?;
    String::from_str(alloc, head.as_str())
}
