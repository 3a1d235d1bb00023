//! Units, joined by commas.

ghost use Rattle.std.specs.Prelude.{◌≡◌, ◌<◌, ◌-◌, ◌^◌, ◌++◌, length, min, OnOk, string_bytes};
ghost use Rattle.std.specs.List.{All};
ghost use Rattle.basic_output.specs.Pieces.{joined_texts, later_texts};
ghost use Rattle.basic_output.specs.Spans.{IsSpan, text_at, texts_in_order};
ghost use Rattle.basic_output.specs.Units.{unit_texts};

use crate::units::{Span, Units};
use std::alloc::AllocError;

impl Units {
    /// How many bytes the units have with a comma between each two, counted without writing them; `usize::MAX` where they are
    /// more, which no text has.
    pub fn joined_len(&self) -> usize
        ensures { result ≡ min (length (joined_texts (unit_texts self.now))) (2 ^ 64 - 1) }
    {
        match self.order().split_first() {
            Some((first, rest)) => texts_len(self.text(), self.spans(), *first, rest),
            None => 0,
        }
    }

    /// Room for the units with a comma between each two, told without a look at them. No text depends on it.
    pub fn joined_room(&self) -> usize {
        self.text().len().saturating_add(self.order().len())
    }

    /// Appends the units, with a comma between each two. After want of memory the first of them may stand there.
    pub fn write_joined(&self, out: &mut String) -> Result<(), AllocError>
        ensures { OnOk result
            (string_bytes out.new ≡ string_bytes out.old ++ joined_texts (unit_texts self.now)) }
    {
        write_joined(self.text(), self.spans(), self.order(), out)
    }
}

// How many bytes a text and the later ones have, each of these behind a comma.
fn texts_len(text: &str, spans: &[Span], first: usize, later: &[usize]) -> usize
    requires spans { All (IsSpan text.now) spans.now }
    requires first { first < length spans.now }
    requires later { All (λ i. i < length spans.now) later.now }
    ensures { result ≡ min (length (text_at text.now spans.now first
        ++ later_texts (texts_in_order text.now spans.now later.now))) (2 ^ 64 - 1) }
{
    let unit = spans[first].text_in(text);
    later_len(text, spans, later).saturating_add(unit.len())
}

// How many bytes the texts that stand there have, each behind a comma.
fn later_len(text: &str, spans: &[Span], order: &[usize]) -> usize
    requires spans { All (IsSpan text.now) spans.now }
    requires order { All (λ i. i < length spans.now) order.now }
    ensures { result ≡ min (length (later_texts (texts_in_order text.now spans.now order.now)))
        (2 ^ 64 - 1) }
{
    let mut count: usize = 0;
    for place in order {
        let unit = spans[*place].text_in(text);
        count = count.saturating_add(1).saturating_add(unit.len());
    }
    count
}

// The texts that stand there in this order, joined.
fn write_joined(
    text: &str,
    spans: &[Span],
    order: &[usize],
    out: &mut String,
) -> Result<(), AllocError>
    requires spans { All (IsSpan text.now) spans.now }
    requires order { All (λ i. i < length spans.now) order.now }
    ensures { OnOk result (string_bytes out.new
        ≡ string_bytes out.old ++ joined_texts (texts_in_order text.now spans.now order.now)) }
{
    match order.split_first() {
        Some((first, rest)) => write_runs(text, spans, *first, rest, out),
        None => Ok(()),
    }
}

// A text, and each later one behind a comma: those that stand so already are written at once.
fn write_runs(
    text: &str,
    spans: &[Span],
    first: usize,
    later: &[usize],
    out: &mut String,
) -> Result<(), AllocError>
    requires spans { All (IsSpan text.now) spans.now }
    requires first { first < length spans.now }
    requires later { All (λ i. i < length spans.now) later.now }
    ensures { OnOk result (string_bytes out.new ≡ string_bytes out.old
        ++ (text_at text.now spans.now first
        ++ later_texts (texts_in_order text.now spans.now later.now))) }
{
    let mut run = spans[first];
    for place in later {
        let span = spans[*place];
        run = match run.joined(span) {
            Some(joined) => joined,
            None => {
                out.push_str(run.text_in(text))?;
                out.push_str(",")?;
                span
            }
        }
    }
    out.push_str(run.text_in(text))
}
