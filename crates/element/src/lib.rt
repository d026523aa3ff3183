// The element name of a data item's type: Pascal case without '_'.
#![tactic(auto)]

ghost use Rattle.std.specs.Prelude.{◌≡◌, ◌==◌, ◌≤◌, true, not, find, length};
ghost use Rattle.spec.specs.Model.{name_bytes};
ghost use Rattle.streams.specs.Streams.{element_name};
ghost use Rattle.element.specs.Pascal.{bare, cased, pascal};

use arrayvec::ArrayVec;
use scan::is_digit;
use spec::NAME_BYTES;

// The most bytes of an element: a 'T' may come before a name.
pub const ELEMENT_BYTES: usize = NAME_BYTES + 1;

// The first byte that is no '_'.
fn first_sign(s: &[u8]) -> Option<u8>
    ensures { result ≡ find (λ x. not (x == 95)) s.now }
{
    s.iter().copied().find(|x| *x != b'_')
}

// Whether no letter begins the name in Pascal case.
fn is_bare(s: &[u8]) -> bool
    ensures { result ≡ bare (pascal true s.now) }
{
    first_sign(s).is_none_or(is_digit)
}

// A byte in Pascal case: a word's first is a capital.
fn cased(begins: bool, x: u8) -> u8
    ensures { result ≡ cased begins x }
{
    if begins {
        x.to_ascii_uppercase()
    } else {
        x.to_ascii_lowercase()
    }
}

// A row's element. It has bytes of its own since a row shows it twice.
pub fn element_of(s: &[u8]) -> ArrayVec<u8, ELEMENT_BYTES>
    requires { length s.now ≤ name_bytes }
    ensures { result.items ≡ element_name s.now }
{
    let mut name = ArrayVec::new();
    if is_bare(s) {
        name.push(b'T');
    }
    let mut begins = true;
    for x in s {
        let parts = *x == b'_';
        if !parts {
            name.push(cased(begins, *x));
        }
        begins = parts;
    }
    name
}

// How many bytes a row's element has: where they are only counted, none is made. By words: the compiler can't make
// vectors, which would take constants, of a loop that is left in its middle.
pub fn element_length(s: &[u8]) -> usize
    requires { length s.now ≤ name_bytes }
    ensures { result ≡ length (element_name s.now) }
{
    let mut n = usize::from(is_bare(s));
    for word in s.split(|x| *x == b'_') {
        n += word.len();
    }
    n
}
