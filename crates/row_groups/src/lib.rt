// A component's rows in a document, group by group.
#![tactic(auto)]

ghost use Rattle.std.specs.Prelude.{true, false, [], ◌∷◌, ◌++◌, ◌≡◌, ◌<◌, ◌≤◌, ◌/◌, ◌%◌, ◌^◌, get_or, leb, MatchResult};
ghost use Rattle.spec.specs.declared.Refusal.TheVariants.{Store as Refused};
ghost use Rattle.spec.specs.Model.{max_components, components, items, item_word, component_of, category_of};
ghost use Rattle.spec.specs.Reply.{rows_of};
ghost use Rattle.streams.specs.Groups.{group_number};
ghost use Rattle.streams.specs.Streams.{row_in, reply_ok, group_of, each, groups, group_name, item_type, row_line};
ghost use Rattle.streams.specs.Streams.{group_lines, ended, streams_bytes};
ghost use Rattle.writer.specs.Puts.{Put};
ghost use Rattle.row_groups.specs.Groups.{reply_rows, kept, kept_text, filled, any_kept, any_marked};
ghost use Rattle.row_groups.specs.Groups.{Documented, Marked, Placed};
ghost use Rattle.row_groups.specs.Lists.{few, reply_row};

use model::{Named, Words};
use reply_rows::{Reply, group_of};
use row_text::put_group_row;
use spec::Refusal;
use std::marker::Model;
use streams::{GROUPS, Group};
use writer::Output;

mod lists;
mod slots;

use lists::{FEW, Lists, lists_of};
use slots::{Slots, slot_in, slots_of};

const COMPONENT_SLOTS: usize = spec::MAX_COMPONENTS as usize;

// The most bytes of a document: what every one has, what each component adds, and what each row does.
const AROUND: usize = 495;

const COMPONENT_BYTES: usize = 189;

const ROW_BYTES: usize = 154;

// For each group of each component whether it has rows.
pub type Present = [[bool; GROUPS]; COMPONENT_SLOTS];

// ---- which groups have rows

// Where a group stands among a component's: its discriminant.
fn slot_of(g: Group) -> usize
    ensures { (result ≡ group_number g) × (result < groups) }
{
    g as usize
}

// The component and the group that an item's rows stand in.
fn home_of(model: &Words<'_>, item: u64) -> (u64, Group)
    requires { item < items model.now }
    ensures component { result.0 ≡ component_of (item_word model.now item) }
    ensures group { group_number result.1 ≡ group_of (category_of (item_word model.now item)) }
{
    let word = model.item_word(item);
    (
        model::component_of(word),
        group_of(model::category_of(word)),
    )
}

// Whether each group of each component has rows.
pub fn groups_present(model: &Words<'_>, reply: &Reply<'_>) -> Present
    requires { Placed model.now reply.now }
    ensures { Marked model.now (reply_rows reply.now) result }
{
    let mut present = [[false; GROUPS]; COMPONENT_SLOTS];
    for i in 0..reply.rows() {
        let item = value::item_of(reply.row_at(i).packed);
        let (c, g) = home_of(model, item);
        present[c as usize][slot_of(g)] = true;
    }
    present
}

// Whether component c has rows, by its marks; behind the marks there is no component.
pub fn has_rows(present: &Present, c: u64) -> bool
    ensures { result ≡ any_marked present.now c }
{
    present
        .get(c as usize)
        .is_some_and(|groups| groups.contains(&true))
}

// ---- tags

// A group and the text that it goes to stay two, here and below: the one is read, and the other grows.

// A group's name. No one function with figures::put_level is plainer: they share neither type nor text.
fn put_name(g: Group, out: &mut Output)
    ensures { Put out.old (group_name (group_number g)) out.new }
{
    match g {
        Group::Samples => out.put_bytes(b"Samples"),
        Group::Events => out.put_bytes(b"Events"),
        Group::Condition => out.put_bytes(b"Condition"),
    }
}

// The line of a group's tag, which opens with `before`.
fn put_tag(before: &[u8], g: Group, out: &mut Output)
    ensures { Put out.old (before.now ++ (group_name (group_number g) ++ 62 ∷ 10 ∷ [])) out.new }
{
    out.put_bytes(before);
    put_name(g, out);
    out.put_bytes(b">\n");
}

// ---- a document

// What a document is made of: a model with its names, a reply that has only the model's rows, the marks and the lists
// of these, and the slots of the model's items. A clause sees the words and bytes.
#[derive(Drop)]
pub struct Document<'a> {
    pub model: Named<'a>,
    pub reply: Reply<'a>,
    present: Present,
    lists: Lists,
    slots: Slots,
}

impl<'a> Model for Document<'a> {
    ghost use Rattle.row_groups.specs.Groups.{Source, Ready};

    ghost Value = { Source };

    ghost view = { λ d. record { model = d.model.words; names = d.model.names.now; reply = d.reply } };

    ghost invariant = { λ d.
        Ready d.model.words d.model.names.now d.reply d.present d.lists.first d.lists.next d.slots };
}

impl<'a> Document<'a> {
    // What the document of a reply is made of, or refusal Store. Why no trait has this: model::checked.
    pub fn checked(model: Named<'a>, reply: &'a [u64]) -> Result<Document<'a>, Refusal>
        ensures { MatchResult result
            (λ d. (d ≡ record { model = model.entry.words; names = model.entry.names.now; reply = reply.entry.now })
            × (reply_ok model.entry.words reply.entry.now ≡ true))
            (λ r. (r ≡ Refused) × (reply_ok model.entry.words reply.entry.now ≡ false)) }
    {
        let reply = reply_rows::checked(&model.words, reply)?;
        Ok(Document::of(model, reply))
    }

    // What the document of a reply is made of, whose rows are known to be the model's.
    fn of(model: Named<'a>, reply: Reply<'a>) -> Document<'a>
        requires { reply_ok model.words reply ≡ true }
        ensures { result ≡ record { model = model.entry.words; names = model.entry.names.now; reply = reply.entry } }
    {
        let present = groups_present(&model.words, &reply);
        let lists = lists_of(&model.words, &reply);
        let slots = slots_of(&model.words);
        Document {
            model,
            reply,
            present,
            lists,
            slots,
        }
    }

    // Whether component c's group g has rows; a component that the model lacks has none.
    fn is_marked(&self, c: u64, g: Group) -> bool
        ensures value { result ≡ filled (kept self.now.model c (group_number g) (reply_rows self.now.reply)) }
        ensures within { result ≡ true → c < max_components }
    {
        self.present
            .get(c as usize)
            .is_some_and(|groups| groups[slot_of(g)])
    }

    // Whether component c has rows.
    pub fn has_rows(&self, c: u64) -> bool
        ensures { result ≡ any_kept self.now.model c (reply_rows self.now.reply) }
    {
        has_rows(&self.present, c)
    }

    // Whether so many bytes are enough for any document of these components and rows.
    pub fn has_room(&self, room: usize) -> bool
        requires { room < 2 ^ 63 }
        ensures value { result ≡ leb (streams_bytes (components self.now.model) (get_or self.now.reply 0 0)) room }
        ensures documented { Documented self.now.model self.now.names self.now.reply }
    {
        let around = AROUND + COMPONENT_BYTES * (self.model.words.components() as usize);
        ROW_BYTES
            .saturating_mul(self.reply.rows())
            .saturating_add(around)
            <= room
    }

    // Row i's line, as one of group g.
    fn put_row(&self, i: usize, g: Group, out: &mut Output)
        requires { i < get_or self.now.reply 0 0 }
        ensures { Put out.old
            (row_line (group_number g)
            (item_type self.now.model self.now.names (reply_row self.now.reply i).item)
            (reply_row self.now.reply i)
            ++ 10 ∷ [])
            out.new }
    {
        let row = self.reply.row_at(i);
        let t = self.model.item_text(value::item_of(row.packed));
        put_group_row(out, g, t, &row);
    }

    // Row i's line, if its item's slot is `own`, which is one of group g's.
    fn put_if(&self, i: usize, own: u8, g: Group, out: &mut Output)
        requires there { i < get_or self.now.reply 0 0 }
        requires group { own % groups ≡ group_number g }
        ensures { Put out.old
            (kept_text self.now.model self.now.names (own / groups) (group_number g)
            (reply_row self.now.reply i ∷ []))
            out.new }
    {
        if self.slots[value::item_of(self.reply.row_at(i).packed) as usize] == own {
            // reads it again, so that a row that isn't written costs its packed word alone: else 100 took 52 µs for 49
            self.put_row(i, g, out);
        }
    }

    // The lines of the rows of component c and group g, which are looked for among all rows.
    fn put_searched(&self, c: u64, g: Group, out: &mut Output)
        requires { c < max_components }
        ensures { Put out.old
            (kept_text self.now.model self.now.names c (group_number g) (reply_rows self.now.reply))
            out.new }
    {
        let own = slot_in(c, g);
        for i in 0..self.reply.rows() {
            self.put_if(i, own, g, out);
        }
    }

    // The same lines, by the lists of few rows.
    fn put_listed(&self, c: u64, g: Group, out: &mut Output)
        requires there { c < max_components }
        requires few { get_or self.now.reply 0 0 ≤ few }
        ensures { Put out.old
            (kept_text self.now.model self.now.names c (group_number g) (reply_rows self.now.reply))
            out.new }
    {
        let k = self.reply.rows();
        let mut i = self.lists.first[c as usize][slot_of(g)] as usize;
        while i < k {
            self.put_row(i, g, out);
            i = self.lists.next[i] as usize;
        }
    }

    // The lines of the rows of component c and group g, in reply order.
    fn put_rows(&self, c: u64, g: Group, out: &mut Output)
        requires { c < max_components }
        ensures { Put out.old
            (kept_text self.now.model self.now.names c (group_number g) (reply_rows self.now.reply))
            out.new }
    {
        if self.reply.rows() <= FEW {
            self.put_listed(c, g, out);
        } else {
            self.put_searched(c, g, out);
        }
    }

    // Component c's group g; nothing where it has no rows.
    fn put_group(&self, c: u64, g: Group, out: &mut Output)
        ensures { Put out.old
            (ended (group_lines self.now.model self.now.names (group_number g)
            (kept self.now.model c (group_number g) (reply_rows self.now.reply))))
            out.new }
    {
        if !self.is_marked(c, g) {
            return;
        }
        put_tag(b"<", g, out);
        self.put_rows(c, g, out);
        put_tag(b"</", g, out);
    }

    // Component c's groups that have rows, each by its name: a loop over three would be as long, and a proof more.
    pub fn put_groups(&self, c: u64, out: &mut Output)
        ensures { Put out.old
            (ended (each
            (λ g. group_lines self.now.model self.now.names g
            (kept self.now.model c g (reply_rows self.now.reply)))
            groups 0))
            out.new }
    {
        self.put_group(c, Group::Samples, out);
        self.put_group(c, Group::Events, out);
        self.put_group(c, Group::Condition, out);
    }
}
