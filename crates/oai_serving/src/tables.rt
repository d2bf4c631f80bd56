//! Links under keys.
ghost use Rattle.std.specs.Prelude.{◌≡◌, ◌≤◌, ◌<◌, [], ◌∷◌, length};
ghost use Rattle.oai_serving.specs.Accepted.{Passes, known_of};
ghost use Rattle.oai_serving.specs.Tables.{AreLinksDropped, AreSent, AreTurned};

use crate::links::Link;
use crate::sockets::{Sockets, Stream};
use oai_http::Handler;
use slab::Slab;
use std::alloc::Global;

/// The maximum number of open connections.
pub const MAX_LINKS: usize = 1_024;

/// The bytes that may be held in a round before it performs no more.
const MAX_ROUND_BYTES: usize = 16_777_216;

/// The bytes that all links together may hold.
const MAX_BYTES: usize = 268_435_456;

/// When a round is.
#[derive(Clone, Copy)]
pub(crate) struct RoundTime {
    /// The clock's moment, in seconds from 1970 on.
    pub(crate) moment: i64,
    /// The second of the monotonic clock.
    pub(crate) second: u64,
}

/// The keys of the links that a round reads: the first `most` ones, from the key `first` on.
#[derive(Clone, Copy)]
pub(crate) struct RoundKeys {
    pub(crate) first: usize,
    pub(crate) most: usize,
}

/// Reads the link with the key, and performs what came; returns how many bytes it then holds, 0 if output waited.
fn read_at<S: Stream, H: Handler>(
    alloc: Global,
    links: &mut Slab<Link<S>>,
    key: usize,
    handler: &mut H,
    time: RoundTime,
    buffer: &mut [u8],
) -> usize
    ensures { AreTurned H.step S.contents S.remaining time.moment links.old handler.old links.new handler.new }
{
    match links.get_mut(key) {
        Some(link) => link.read(alloc, handler, time.moment, time.second, buffer),
        None => 0,
    }
}

/// Reads the links with these keys, and performs what comes, until more is held than a round may; returns the key at
/// which the next round begins.
pub(crate) fn read_all<S: Stream, H: Handler>(
    alloc: Global,
    links: &mut Slab<Link<S>>,
    keys: RoundKeys,
    handler: &mut H,
    time: RoundTime,
    buffer: &mut [u8],
) -> usize
    ensures { AreTurned H.step S.contents S.remaining time.moment links.old handler.old links.new handler.new }
{
    let RoundKeys { first, most } = keys;
    let mut key = first;
    let mut bytes: usize = 0;
    for _ in 0..most {
        if bytes > MAX_ROUND_BYTES {
            return key;
        }
        if key >= most {
            key = 0;
        }
        bytes = bytes.saturating_add(read_at(alloc, links, key, handler, time, buffer));
        key = key.saturating_add(1);
    }
    first
}

/// Notes that the link with the key became ready.
pub(crate) fn note_at<S: Stream>(
    links: &mut Slab<Link<S>>,
    key: usize,
    readable: bool,
    writable: bool,
    ended: bool,
)
    ensures { AreSent S.contents S.remaining links.old links.new }
{
    match links.get_mut(key) {
        Some(link) => link.note(readable, writable, ended),
        None => {}
    }
}

/// Writes the waiting output of the link with the key, as far as the stream takes it, and moves it on to its next
/// phase.
fn put_at<S: Stream>(links: &mut Slab<Link<S>>, key: usize, second: u64)
    ensures { AreSent S.contents S.remaining links.old links.new }
{
    match links.get_mut(key) {
        Some(link) => link.put(second),
        None => {}
    }
}

/// Removes the link with the key, if it is over.
fn end_at<S: Stream + Drop, K: Sockets<S>>(sockets: &mut K, links: &mut Slab<Link<S>>, key: usize)
    ensures { AreLinksDropped S.contents S.remaining (known_of (K.accepted sockets.old) (K.gone sockets.old))
        (known_of (K.accepted sockets.new) (K.gone sockets.new)) links.old links.new }
{
    if is_over_at(links, key) {
        take_away(sockets, links, key);
    }
}

/// Removes the link with the key, if there is one, and closes its stream.
fn take_away<S: Stream + Drop, K: Sockets<S>>(
    sockets: &mut K,
    links: &mut Slab<Link<S>>,
    key: usize,
)
    ensures { AreLinksDropped S.contents S.remaining (known_of (K.accepted sockets.old) (K.gone sockets.old))
        (known_of (K.accepted sockets.new) (K.gone sockets.new)) links.old links.new }
{
    match links.try_remove(key) {
        Some(link) => let_go(sockets, link),
        None => {}
    }
}

/// Lets the stream of a link go, with its number.
pub(crate) fn let_go<S: Stream + Drop, K: Sockets<S>>(sockets: &mut K, link: Link<S>)
    ensures { Passes (known_of (K.accepted sockets.old) (K.gone sockets.old))
        (known_of (K.accepted sockets.new) (K.gone sockets.new)) [] ((link.connection.number, link.stream) ∷ []) }
{
    let number = link.number();
    sockets.let_go(number, link.into_stream());
}

/// Whether the link with the key is over.
fn is_over_at<S: Stream>(links: &Slab<Link<S>>, key: usize) -> bool {
    match links.get(key) {
        Some(link) => link.is_over(),
        None => false,
    }
}

/// Writes the waiting output of the links with the first `most` keys, as far as the streams take it.
pub(crate) fn put_all<S: Stream>(links: &mut Slab<Link<S>>, most: usize, second: u64)
    ensures { AreSent S.contents S.remaining links.old links.new }
{
    for key in 0..most {
        put_at(links, key, second);
    }
}

/// Removes those of the links with the first `most` keys that are over.
pub(crate) fn end_all<S: Stream + Drop, K: Sockets<S>>(
    sockets: &mut K,
    links: &mut Slab<Link<S>>,
    most: usize,
)
    ensures { AreLinksDropped S.contents S.remaining (known_of (K.accepted sockets.old) (K.gone sockets.old))
        (known_of (K.accepted sockets.new) (K.gone sockets.new)) links.old links.new }
{
    for key in 0..most {
        end_at(sockets, links, key);
    }
}

/// Removes links while all together hold more than they may, the one that was idle longest first.
pub(crate) fn shed_all<S: Stream + Drop, K: Sockets<S>>(sockets: &mut K, links: &mut Slab<Link<S>>)
    ensures { AreLinksDropped S.contents S.remaining (known_of (K.accepted sockets.old) (K.gone sockets.old))
        (known_of (K.accepted sockets.new) (K.gone sockets.new)) links.old links.new }
{
    for _ in 0..links.capacity() {
        if size_of(links) <= MAX_BYTES {
            return;
        }
        let key = idlest_of(links);
        take_away(sockets, links, key);
    }
}

/// How many bytes all links hold; saturates at `usize::MAX`.
fn size_of<S: Stream>(links: &Slab<Link<S>>) -> usize {
    let mut size: usize = 0;
    for (_, link) in links.iter() {
        size = size.saturating_add(link.size());
    }
    size
}

/// The key of the link that was idle longest; 0 if there is none.
fn idlest_of<S: Stream>(links: &Slab<Link<S>>) -> usize {
    let mut idlest = 0;
    let mut heard = u64::MAX;
    for (key, link) in links.iter() {
        if link.heard() < heard {
            idlest = key;
            heard = link.heard();
        }
    }
    idlest
}

/// Whether a link has something to do without waiting.
pub(crate) fn is_any_busy<S: Stream>(links: &Slab<Link<S>>) -> bool {
    for (_, link) in links.iter() {
        if link.is_busy() {
            return true;
        }
    }
    false
}
