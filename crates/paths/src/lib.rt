// The form of a path, with the names in it.
#![tactic(auto)]

ghost use Rattle.std.specs.Prelude.{◌≡◌, length, option_map};
ghost use Rattle.spec.specs.Path.{form_of};
ghost use Rattle.paths.specs.Forms.{item_type, meaning, NamesFit};

// A path that selects: //T, by T alone, and //T//DataItem[@type="Y"], by T and Y.
#[derive(Clone, Copy)]
pub struct PathForm<'a> {
    pub t: &'a [u8],
    pub y: Option<&'a [u8]>,
}

// The item type Y, where what follows T is that of the second form.
fn item_type(rest: &[u8]) -> Option<&[u8]>
    ensures { option_map (λ y. y.now) result ≡ item_type rest.now }
{
    let quoted = rest.strip_prefix(b"//DataItem[@type=\"")?;
    quoted.strip_suffix(b"\"]")
}

// The form of a path; none where it has neither. The names are parts of it.
pub fn path_form(path: &[u8]) -> Option<PathForm<'_>>
    ensures value { meaning result ≡ form_of path.now }
    ensures names_fit { NamesFit result (length path.now) }
{
    let names = path.strip_prefix(b"//")?;
    // find has the definitions' word, and the second part keeps its '/', so it is no split_once
    let Some(end) = scan::find(names, b'/', b'/') else {
        return Some(PathForm { t: names, y: None });
    };
    let (t, rest) = names.split_at(end);
    let y = item_type(rest)?;
    Some(PathForm { t, y: Some(y) })
}
