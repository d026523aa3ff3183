// A streams document, written: whole, or not at all.
#![tactic(auto)]

ghost use Rattle.std.specs.Prelude.{true, [], ◌∷◌, ◌++◌, ◌≡◌, get_or};
ghost use Rattle.streams.specs.Streams.{empty_tag, streams_lines, ended};
ghost use Rattle.writer.specs.Puts.{Put};
ghost use Rattle.writer.specs.Whole.{text_after, bytes_of};
ghost use Rattle.row_groups.specs.Groups.{reply_rows};
ghost use Rattle.document.specs.Header.{start_lines, given_part, numbers_part, header_of, document_of};

use attributes::{put_number, put_time};
use components_text::{put_components, put_device};
use reply_rows::Reply;
use row_groups::Document;
use spec::Answer;
use writer::{Output, write_fitting, write_whole};

// What the header says that no reply does: the ring's size, the host's instance, and the document's own time.
#[derive(Clone, Copy)]
pub struct Header {
    pub buffer_size: u64,
    pub instance: u64,
    pub creation: u64,
}

// The header's first half: the document's own time and what the host gives.
fn put_given(h: &Header, out: &mut Output)
    ensures { Put out.old (given_part h.now.buffer_size h.now.instance h.now.creation) out.new }
{
    put_time(out, b"<Header creationTime=\"", h.creation);
    put_number(out, b" sender=\"box\" instanceId=\"", h.instance);
    put_number(out, b" bufferSize=\"", h.buffer_size);
}

// Its second half: the reply's next, first and last.
fn put_numbers(reply: &Reply<'_>, out: &mut Output)
    ensures { Put out.old
        (numbers_part (get_or reply.now 3 0) (get_or reply.now 1 0) (get_or reply.now 2 0)) out.new }
{
    put_number(out, b" version=\"1.2\" nextSequence=\"", reply.next());
    put_number(out, b" firstSequence=\"", reply.first());
    put_number(out, b" lastSequence=\"", reply.last());
}

// The header.
fn put_header(reply: &Reply<'_>, h: &Header, out: &mut Output)
    ensures { Put out.old (empty_tag (header_of reply.now h.now) ++ 10 ∷ []) out.new }
{
    put_given(h, out);
    put_numbers(reply, out);
    out.put_bytes(b"/>\n");
}

// The rows with all that stands around them; an empty element where there are none.
fn put_streams(d: &Document<'_>, out: &mut Output)
    ensures { Put out.old
        (ended (streams_lines d.now.model d.now.names (reply_rows d.now.reply)))
        out.new }
{
    if d.reply.rows() == 0 {
        out.put_bytes(b"<Streams/>\n");
    } else {
        out.put_bytes(b"<Streams>\n");
        put_device(&d.model, out);
        put_components(d, out);
        out.put_bytes(b"</DeviceStream>\n</Streams>\n");
    }
}

// The document's first two lines.
fn put_start(out: &mut Output)
    ensures { Put out.old (ended start_lines) out.new }
{
    out.put_bytes(b"<?xml version=\"1.0\" encoding=\"UTF-8\"?>\n");
    out.put_bytes(b"<MTConnectStreams xmlns=\"urn:mtconnect.org:MTConnectStreams:1.2\">\n");
}

// The document.
fn put_document(d: &Document<'_>, h: &Header, out: &mut Output)
    ensures { Put out.old (document_of d.now h.now) out.new }
{
    put_start(out);
    put_header(&d.reply, h, out);
    put_streams(d, out);
    out.put_bytes(b"</MTConnectStreams>\n");
}

// The document, or nothing where the text is too short for it. Its length is counted only where the text may be too
// short: that takes a pass of its own, over no bytes.
pub fn write_document(d: &Document<'_>, h: &Header, text: &mut [u8]) -> Answer
    ensures text_after { text.new ≡ text_after (document_of d.now h.now) text.old }
    ensures value { result ≡ bytes_of (document_of d.now h.now) text.old }
{
    if d.has_room(text.len()) {
        write_fitting(text, |out| put_document(d, h, out))
    } else {
        write_whole(text, |out| put_document(d, h, out))
    }
}
