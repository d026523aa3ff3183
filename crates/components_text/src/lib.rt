// The components of a document, with the rows of each.
#![tactic(auto)]

ghost use Rattle.std.specs.Prelude.{[], ◌∷◌, ◌++◌, ◌<◌};
ghost use Rattle.spec.specs.Model.{components};
ghost use Rattle.streams.specs.Streams.{having, row_component, tag, device_tag, component_tag, component_lines};
ghost use Rattle.streams.specs.Streams.{components_lines, ended};
ghost use Rattle.writer.specs.Puts.{Put};
ghost use Rattle.row_groups.specs.Groups.{reply_rows};

use attributes::{put_number, put_text};
use model::Named;
use row_groups::Document;
use writer::Output;

// The start of the device: its name and uuid are component 0's.
pub fn put_device(model: &Named<'_>, out: &mut Output)
    ensures { Put out.old (tag (device_tag model.now.words model.now.names.now) ++ 10 ∷ []) out.new }
{
    let t = model.component_text(0);
    put_text(out, b"<DeviceStream name=\"", t);
    put_text(out, b" uuid=\"", t);
    out.put_bytes(b">\n");
}

// The start of component c.
fn put_start(d: &Document<'_>, c: u64, out: &mut Output)
    requires { c < components d.now.model }
    ensures { Put out.old (tag (component_tag d.now.model d.now.names c) ++ 10 ∷ []) out.new }
{
    let t = d.model.component_text(c);
    put_text(out, b"<ComponentStream component=\"", t);
    put_text(out, b" name=\"", t);
    put_number(out, b" componentId=\"c", c);
    out.put_bytes(b">\n");
}

// Component c with its rows; nothing where it has none.
fn put_component(d: &Document<'_>, c: u64, out: &mut Output)
    requires { c < components d.now.model }
    ensures { Put out.old
        (ended (component_lines d.now.model d.now.names c
        (having (row_component d.now.model) c (reply_rows d.now.reply))))
        out.new }
{
    if !d.has_rows(c) {
        return;
    }
    put_start(d, c, out);
    d.put_groups(c, out);
    out.put_bytes(b"</ComponentStream>\n");
}

// The components that have rows, in model order.
pub fn put_components(d: &Document<'_>, out: &mut Output)
    ensures { Put out.old
        (ended (components_lines d.now.model d.now.names (reply_rows d.now.reply)))
        out.new }
{
    for c in 0..d.model.words.components() {
        put_component(d, c, out);
    }
}
