// The call that writes a streams document: all that it is given is tested in the order of the refusals, over the
// whole reply, and behind the last of them the document is written, whole.
#![tactic(auto)]

ghost use Rattle.spec.specs.Reply.{Gives};
ghost use Rattle.streams.specs.Streams.{streams};

use document::Header;
use row_groups::Document;
use spec::{Answer, Refusal};

// The document of a reply: how many bytes it has, or the refusal.
pub fn streams(
    model: &[u32],
    names: &[u8],
    reply: &[u64],
    n: u64,
    instance_id: u64,
    creation_time: u64,
    text: &mut [u8],
) -> Answer
    ensures { Gives result text.new
        (streams model.now names.now reply.now n instance_id creation_time
        text.old) }
{
    let named = model::checked(model, names)?;
    let made = Document::checked(named, reply)?;
    if !reply_rows::times_ok(creation_time, &made.reply) {
        return Err(Refusal::Stamp);
    }
    let header = Header {
        buffer_size: n,
        instance: instance_id,
        creation: creation_time,
    };
    document::write_document(&made, &header, text)
}
