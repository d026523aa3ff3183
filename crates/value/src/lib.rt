// The value of an observation: which an item takes, its packed word, and back.
#![tactic(auto)]

ghost use Rattle.std.specs.Prelude.{◌≡◌, ◌+◌, ◌*◌, ◌%◌, ◌<◌, ◌^◌};
ghost use Rattle.spec.specs.Value.{low_word, level_number, value_word, pack, item_of, native_ok, takes};
ghost use Rattle.spec.specs.Value.{decode_kind, decode};

use spec::{Level, Value};

// How many native codes there are.
pub const CODES: u32 = 1 << 24;

// The units of a packed word: of its item, of its value's kind, and of the level above a condition's code. A constant
// can call no From.
pub const ITEM: u64 = 1 << 40;

pub const KIND: u64 = 1 << 32;

pub const LEVEL: u64 = CODES as u64;

// The kinds that have a low word. Numbers and no enum, since a word that the C interface brings, or a lent buffer has,
// may have any number there.
pub const SAMPLE_KIND: u64 = 1;

pub const EVENT_KIND: u64 = 2;

pub const CONDITION_KIND: u64 = 3;

// The highest level, a Fault's.
pub const TOP_LEVEL: u64 = Level::Fault as u64;

// The kind and the level of a condition in one number, in units of the level.
pub const NORMAL: u64 = CONDITION_KIND * (KIND / LEVEL);

pub const WARNING: u64 = NORMAL + Level::Warning as u64;

pub const FAULT: u64 = NORMAL + TOP_LEVEL;

// What no item takes. `decode` gives it where a word has no value, by its definition, and who asks for the value
// refuses it as any other that the item doesn't take: an Option would make decode a function that can fail.
const NO_VALUE: Value = Value::Condition(Level::Normal, u32::MAX);

// The low word of a sample: the sample, plus 2^32 if it is negative.
pub fn low_word(x: i32) -> u64
    ensures value { result ≡ low_word x }
    ensures upper_bound { result < 2 ^ 32 }
{
    u64::from(x.cast_unsigned())
}

// A level's number: its discriminant.
pub fn level_number(l: Level) -> u64
    ensures value { result ≡ level_number l }
    ensures upper_bound { result < 3 }
{
    l as u64
}

// The value's word: the packed word without its item.
pub fn value_word(v: Value) -> u64
    ensures value { result ≡ value_word v }
    ensures upper_bound { result < 2 ^ 40 }
{
    match v {
        Value::Unavailable => 0,
        Value::Sample(x) => SAMPLE_KIND * KIND + low_word(x),
        Value::Event(c) => EVENT_KIND * KIND + u64::from(c),
        Value::Condition(l, c) => CONDITION_KIND * KIND + (level_number(l) * LEVEL + u64::from(c)),
    }
}

// The packed word of an item and the word of a value: any item below 2^24 fits. The bound is a clause here and wherever
// an item's number comes beside a word: a type that keeps it would be made and taken apart at each word.
pub fn pack_word(item: u64, word: u64) -> u64
    requires { (item < 2 ^ 24) × (word < 2 ^ 40) }
    ensures { result ≡ item * 2 ^ 40 + word }
{
    item * ITEM + word
}

// The packed word of an item and its value.
pub fn pack(item: u64, v: Value) -> u64
    requires { item < 2 ^ 24 }
    ensures { result ≡ pack item v }
{
    pack_word(item, value_word(v))
}

// The item of a packed word.
pub fn item_of(word: u64) -> u64
    ensures { result ≡ item_of word }
{
    word / ITEM
}

// The value's word of a packed word.
pub fn word_of(word: u64) -> u64
    ensures { result ≡ word % 2 ^ 40 }
{
    word % ITEM
}

// Whether a condition may have the native code c.
fn native_ok(c: u32) -> bool
    ensures { result ≡ native_ok c }
{
    c < CODES
}

// Whether an item of the category takes the value.
pub fn takes(category: u64, v: Value) -> bool
    ensures { result ≡ takes category v }
{
    match v {
        Value::Unavailable => category <= spec::CONDITION || category == spec::DISCRETE,
        Value::Sample(_) => category == spec::SAMPLE,
        Value::Event(_) => category == spec::EVENT || category == spec::DISCRETE,
        Value::Condition(_, c) => category == spec::CONDITION && native_ok(c),
    }
}

// The condition of a low word, or what no item takes where its level is above 2. By number, as decode_kind has it: a
// TryFrom would refuse a level for which NO_VALUE is wanted.
fn condition_of(low: u32) -> Value
    ensures { result ≡ decode_kind 3 low }
{
    let code = low % CODES;
    match low / CODES {
        0 => Value::Condition(Level::Normal, code),
        1 => Value::Condition(Level::Warning, code),
        2 => Value::Condition(Level::Fault, code),
        _ => NO_VALUE,
    }
}

// The value of a word; a word that no value has gives one that no item takes.
pub fn decode(word: u64) -> Value
    ensures { result ≡ decode word }
{
    // a test of its own: a match over kind and low word costs each caller a table of jumps
    if word == 0 {
        return Value::Unavailable;
    }
    let kind = word / KIND;
    // no From or TryFrom: nothing is lost behind the remainder
    let low = (word % KIND) as u32;
    match kind {
        SAMPLE_KIND => Value::Sample(low.cast_signed()),
        EVENT_KIND => Value::Event(low),
        CONDITION_KIND => condition_of(low),
        _ => NO_VALUE,
    }
}

// Whether an item of the category takes the value of a word: takes of decode, by the word alone. A batch asks it of
// each record, and a word that was taken apart would be packed again at once.
pub fn takes_word(category: u64, word: u64) -> bool
    ensures { result ≡ takes category (decode word) }
{
    let kind = word / KIND;
    if category <= spec::EVENT {
        // samples and events have their kinds in the order of their categories
        return kind == category + SAMPLE_KIND || word == 0;
    }
    if category == spec::CONDITION {
        let front = word / LEVEL;
        return word == 0 || (NORMAL <= front && front <= FAULT);
    }
    category == spec::DISCRETE && (kind == EVENT_KIND || word == 0)
}
