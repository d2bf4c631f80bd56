//! Estimates the length of a document, so that its buffer seldom grows. No contract speaks of it: a document that is
//! longer grows.
use crate::documents::Body;
use crate::fields::fields_in;
use oai_item::{Format, Item};

/// The estimate for what every document has, and for small content, in bytes.
const FIRST_ROOM: usize = 4_096;

/// The maximum initial capacity.
const MAX_ROOM: usize = 4_194_304;

/// The estimate for a record or a header without its texts: its tags, and the attributes of its metadata.
const RECORD_ROOM: usize = 640;

const HEADER_ROOM: usize = 160;

/// The estimate for the tags of a field or of a setSpec without its name.
const FIELD_ROOM: usize = 16;

/// The estimated length of a document with that answer. One record is estimated by the length of its encoded item, so
/// that its fields are not passed over. A list is estimated by its first item, on the assumption that it is a little
/// shorter than the others.
pub(crate) fn room_of(body: &Body<'_>) -> usize {
    let room = match body {
        Body::GetRecord(record) => record.item.encoded_len().unwrap_or(0),
        Body::ListIdentifiers(list) => room_of_all(list.items, None),
        Body::ListRecords(format, list) => room_of_all(list.items, Some(*format)),
        _ => 0,
    };
    room.saturating_add(FIRST_ROOM).min(MAX_ROOM)
}

/// The estimate for that many items like the first, as headers or as records in a format.
fn room_of_all(items: &[Item], format: Option<&Format>) -> usize {
    let Some(first) = items.first() else {
        return 0;
    };
    let room = match format {
        Some(format) => record_room(format, first),
        None => header_room(first),
    };
    room.saturating_add(room / 8).saturating_mul(items.len())
}

/// The estimate for the header of the item.
fn header_room(item: &Item) -> usize {
    let mut room = HEADER_ROOM.saturating_add(item.identifier().as_str().len());
    for set in item.sets() {
        room = room
            .saturating_add(FIELD_ROOM + 8)
            .saturating_add(set.as_str().len());
    }
    room
}

/// The estimate for the record of the item.
fn record_room(format: &Format, item: &Item) -> usize {
    let mut room = header_room(item).saturating_add(RECORD_ROOM);
    let mut fields = fields_in(format.prefix.as_str(), item);
    while let Some(field) = fields.next() {
        room = room
            .saturating_add(FIELD_ROOM)
            .saturating_add(field.name.len())
            .saturating_add(field.name.len())
            .saturating_add(field.text.len());
    }
    room
}
