//! Where bytes are drawn.

ghost use Rattle.std.specs.Prelude.{◌≡◌, ◌++◌, OnOk};
ghost use Rattle.ncc_picture.specs.Spans.{place, span, width};

use crate::marks::{push_rect, push_titled};
use std::alloc::AllocError;

/// Where a place is drawn in a bar for so many bytes.
pub fn place(far: u128, n: u128) -> u128
    ensures { result ≡ place far n }
{
    if far < 1 << 64 {
        return n.min(far) * 1000 / far.max(1);
    }
    n.min(far) / (far / 1000)
}

/// How wide the bytes between two places are drawn.
fn width(far: u128, from: u128, to: u128) -> u128
    ensures { result ≡ width far from to }
{
    place(far, to).saturating_sub(place(far, from)).max(1)
}

/// Adds the bytes from here up to there, with words.
#[tactic(auto, unfolding(crate::specs::Spans::span))]
pub fn push_span(
    out: &mut Vec<u8>,
    far: u128,
    y: u128,
    class: &[u8],
    from: u128,
    to: u128,
    title: &[u8],
) -> Result<(), AllocError>
    ensures { OnOk result (out.new.items ≡ out.old.items ++ span far y class.now from to title.now) }
{
    push_rect(out, class, place(far, from), y, width(far, from, to), 36)?;
    push_titled(out, title)
}
