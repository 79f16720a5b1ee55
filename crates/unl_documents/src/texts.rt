//! Text helpers: trimming, splitting, comma-separated lists and names.
ghost use Rattle.std.specs.Prelude.{◌≡◌, ◌<◌, ◌++◌, [], ◌∷◌, length, IfOk, IfSome, IfNone, OnOk};
ghost use Rattle.unl_documents.specs.Texts.{trimmed, parts, items_among, comma_items, is_name};

use crate::list::List;
use crate::memory::Memory;
use crate::text::Text;
use std::alloc::Global;

/// Returns the text without leading and trailing whitespace: the bytes 9, 10, 12, 13 and 32 (a set chosen by this
/// project).
pub fn trimmed(text: &str) -> &str
    ensures { result.now ≡ trimmed text.now }
{
    text.trim_ascii()
}

/// Returns the bytes without leading and trailing whitespace, as [`trimmed`] defines it.
pub fn trimmed_bytes(bytes: &[u8]) -> &[u8]
    ensures { result.now ≡ trimmed bytes.now }
{
    bytes.trim_ascii()
}

/// Returns whether the text is a name: it has 1 to 255 bytes (limits chosen by this project).
pub fn is_name(text: &str) -> bool
    ensures { result ≡ is_name text.now }
{
    !text.is_empty() && text.len() <= 255
}

/// Returns the texts before and after the first `mark`, which must be an ASCII character. Returns `None` if the text
/// doesn't contain `mark`.
pub fn cut(text: &str, mark: char) -> Option<(&str, &str)>
    requires { mark < 128 }
    ensures parts { IfSome result (λ sides. parts mark text.now ≡ sides.0.now ∷ parts mark sides.1.now) }
    ensures shorter { IfSome result (λ sides. length sides.1.now < length text.now) }
    ensures whole { IfNone result (parts mark text.now ≡ text.now ∷ []) }
{
    text.split_once(mark)
}

/// Returns the items of a comma-separated list: the parts between commas, each [`trimmed`], without the empty ones (a
/// rule chosen by this project). The only error is out of memory.
#[tactic(auto, unfolding(crate::specs::Texts::comma_items))]
pub fn comma_items(alloc: Global, text: &str) -> Result<List<Text>, Memory>
    ensures { IfOk result (λ items. items ≡ comma_items text.now) }
{
    let mut items = List::new(alloc);
    let mut rest = text;
    while let Some((part, more)) = cut(rest, ',') {
        push_item(alloc, &mut items, part)?;
        rest = more;
    }
    push_item(alloc, &mut items, rest)?;
    Ok(items)
}

/// Appends `part` trimmed, unless it is then empty.
fn push_item(alloc: Global, items: &mut List<Text>, part: &str) -> Result<(), Memory>
    ensures { OnOk result (items.new ≡ items.old ++ items_among (part.now ∷ [])) }
{
    let item = trimmed(part);
    if !item.is_empty() {
        items.push(Text::new(alloc, item)?)?;
    }
    Ok(())
}
