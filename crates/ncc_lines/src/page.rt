//! The page on which text gathers before it is sent.

ghost use Rattle.std.specs.Prelude.{◌≡◌, ◌++◌, ◌<◌, [], length, OnOk};
ghost use Rattle.ncc_lines.specs.Words.{name_text};
ghost use Rattle.ncc_lines.specs.Sends.{Sends, Blames};

use crate::escape::push_name;
use crate::send_error::SendError;
use ncc_header::{Sink, write_all};

/// With so many bytes a page is sent. Between two looks at it at most 5,000 bytes are added, a piece of a
/// name and what stands about it, so no more than 64 KiB of text are in memory.
const FULL: usize = 60_000;

/// How many bytes of a name, each printed as at most 4 bytes, are added at once.
const PIECE: usize = 1024;

/// Sends what the page holds. After an `Err` a front of it is sent.
pub fn send_page<W: Sink>(page: &mut Vec<u8>, sink: &mut W) -> Result<(), SendError>
    ensures sent { Sends (W.put sink.old) (W.put sink.new) page.old.items page.new.items result }
    ensures empty { OnOk result (page.new.items ≡ []) }
    ensures count { Blames (W.failures sink.old) (W.failures sink.new) result }
{
    write_all(sink, page)?;
    page.clear();
    Ok(())
}

/// Sends what the page holds if it is full; then it isn't.
pub fn turn_page<W: Sink>(page: &mut Vec<u8>, sink: &mut W) -> Result<(), SendError>
    ensures short { OnOk result (length page.new.items < 60000) }
    ensures sent { Sends (W.put sink.old) (W.put sink.new) page.old.items page.new.items result }
    ensures count { Blames (W.failures sink.old) (W.failures sink.new) result }
{
    if page.len() < FULL {
        return Ok(());
    }
    send_page(page, sink)
}

/// Sends a short text.
pub fn send<W: Sink>(text: &[u8], page: &mut Vec<u8>, sink: &mut W) -> Result<(), SendError>
    ensures sent { Sends (W.put sink.old) (W.put sink.new) (page.old.items ++ text.now) page.new.items result }
    ensures count { Blames (W.failures sink.old) (W.failures sink.new) result }
{
    page.extend_from_slice(text)?;
    turn_page(page, sink)
}

/// Sends a short name.
fn send_short<W: Sink>(name: &[u8], page: &mut Vec<u8>, sink: &mut W) -> Result<(), SendError>
    ensures sent { Sends (W.put sink.old) (W.put sink.new)
        (page.old.items ++ name_text name.now) page.new.items result }
    ensures count { Blames (W.failures sink.old) (W.failures sink.new) result }
{
    push_name(page, name)?;
    turn_page(page, sink)
}

/// Sends a name, piece by piece.
pub fn send_name<W: Sink>(name: &[u8], page: &mut Vec<u8>, sink: &mut W) -> Result<(), SendError>
    ensures sent { Sends (W.put sink.old) (W.put sink.new)
        (page.old.items ++ name_text name.now) page.new.items result }
    ensures count { Blames (W.failures sink.old) (W.failures sink.new) result }
{
    let mut rest = name;
    while !rest.is_empty() {
        let (piece, after) = rest.split_at(rest.len().min(PIECE));
        send_short(piece, page, sink)?;
        rest = after;
    }
    Ok(())
}
