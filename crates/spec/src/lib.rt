// The bounds, sizes and categories that the code shares, and the types that the calls take and answer. What they
// mean stands in specs/, where each bound has its name too.
#![tactic(auto)]

// Items and components of a model; the lengths of arrays with a place for each. Where a bound is both, it has two
// names: numbers are compared with a u64, an array's length is a usize, and neither is cast where it is used.
pub const MAX_ITEMS: u64 = 64;

pub const ITEM_SLOTS: usize = MAX_ITEMS as usize;

pub const MAX_COMPONENTS: u64 = 64;

// The categories with values of their own. Numbers and no enum: a word that C brings, or a lent buffer has, may have
// any number there, and a narrower parameter would ask more of callers.
pub const SAMPLE: u64 = 0;

pub const EVENT: u64 = 1;

pub const CONDITION: u64 = 2;

pub const DISCRETE: u64 = 4;

// Entries of an item in each of its tables.
pub const ENTRIES: u64 = 8;

pub const ENTRY_SLOTS: usize = ENTRIES as usize;

// Names: bytes of a cell, and cells.
pub const NAME_BYTES: usize = 24;

pub const MAX_NAMES: usize = 256;

// Sequence numbers, and observations of a ring.
pub const MAX_NUMBER: u64 = (1 << 63) - 1;

pub const MAX_RING: u64 = 131072;

// Assets: cells of a store, bytes of an id's cell and of a body's cell, bytes of the longest body.
pub const MAX_ASSETS: u64 = 128;

pub const ASSET_SLOTS: usize = MAX_ASSETS as usize;

pub const ID_BYTES: usize = 32;

pub const CELL_BYTES: usize = 512;

pub const MAX_BODY: u64 = 510;

// How many numbers a sample considers where no count is given.
pub const DEFAULT_COUNT: u64 = 100;

// Records of a batch.
pub const MAX_BATCH: usize = 256;

// A condition's level.
#[derive(Clone, Copy)]
pub enum Level {
    Normal,
    Warning,
    Fault,
}

// An observation's value: a sample in thousandths of the item's unit, an event's code, a level with its native code.
#[derive(Clone, Copy)]
pub enum Value {
    Unavailable,
    Sample(i32),
    Event(u32),
    Condition(Level, u32),
}

// An observation's number, time and packed word. A table's unused row is three zeros, by document 01, and its number
// says so: who reads a row tests that, and no Option is made of what stands in a store.
#[derive(Clone, Copy)]
pub struct Row {
    pub number: u64,
    pub time: u64,
    pub packed: u64,
}

// A record of a batch: an item, a time and a value's word, laid out as C has it.
#[repr(C)]
#[derive(Clone, Copy)]
pub struct Record {
    pub item: u64,
    pub time: u64,
    pub value: u64,
}

// The refusals, each with its number: 12 is none's.
#[derive(Clone, Copy, PartialEq, Eq, Debug)]
pub enum Refusal {
    Model = 1,
    Store = 2,
    Size = 3,
    Item = 4,
    Kind = 5,
    Spent = 6,
    InvalidUri = 7,
    InvalidRequest = 8,
    Unsupported = 9,
    TooMany = 10,
    InvalidXpath = 11,
    AssetNotFound = 13,
    Asset = 14,
    Space = 15,
    Batch = 16,
    Late = 17,
    Early = 18,
    Crowded = 19,
    Line = 20,
    Stamp = 21,
}

// The answer of start, request and observe_batch: how many rows the reply has or records were observed; that of
// store_asset: the cell that now holds the asset; that of the calls that write text: how many bytes.
pub type Answer = Result<u64, Refusal>;

// What observe has done: the observation has a number, or it says nothing new and isn't added. No Option: Same is an
// answer of its own, and not the lack of one, as it is to short_way, which gives an Option of this.
#[derive(Clone, Copy, PartialEq, Eq, Debug)]
pub enum Noted {
    Recorded(u64),
    Same,
}

pub type ObserveAnswer = Result<Noted, Refusal>;

// A part of a store's bytes.
#[derive(Clone, Copy, PartialEq, Eq, Debug)]
pub struct Span {
    pub start: usize,
    pub len: usize,
}
